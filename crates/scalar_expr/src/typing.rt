//! Functions are typed.

ghost use Rattle.std.specs.Prelude.{◌≡◌, ◌≤◌, ◌⊎◌, Ok, Err, IfOk, IfErr};
ghost use Rattle.scalar_expr.specs.Expr.{nodes_in};
ghost use Rattle.scalar_expr.specs.Typing.{typed};
ghost use Rattle.scalar_expr.specs.Views.{scalars_of};

use crate::checking::type_of;
use crate::compile::compile;
use crate::emit::Target;
use crate::fault::TypeFault;
use crate::func::Func;
use crate::function::Typed;
use crate::room::{is_narrow, room_of};
use op_laws::{ElemType, MAX_ELEMENTS};
use std::alloc::Global;

/// The function on elements of the type `ty`, compiled, or its first fault in postorder. It goes
/// over the nodes a few times, and takes memory for a step for each operator. It works on scalars
/// of every depth.
pub fn typed(alloc: Global, f: &Func, ty: ElemType) -> Result<Typed, TypeFault>
    requires few { nodes_in (scalars_of f.now) ≤ MAX_ELEMENTS }
    ensures scalars { IfOk result (λ t. t.scalars ≡ scalars_of f.now) }
    ensures takes { IfOk result (λ t. t.takes ≡ ty) }
    ensures gives { IfOk result (λ t. typed ty (scalars_of f.now) ≡ Ok t.gives) }
    ensures fault { IfErr result (λ e. (e ≡ TypeFault.Memory) ⊎ (typed ty (scalars_of f.now) ≡ Err e)) }
{
    let gives = type_of(f, ty)?;
    let target = Target {
        ty,
        room: room_of(f),
        narrow: is_narrow(f, ty),
    };
    let steps = compile(alloc, f, &target)?;
    Ok(Typed {
        takes: ty,
        gives,
        room: target.room,
        narrow: target.narrow,
        steps,
    })
}
