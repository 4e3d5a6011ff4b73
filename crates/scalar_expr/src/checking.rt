//! The types that functions give, or their first fault.

ghost use Rattle.std.specs.Prelude.{◌≡◌, ◌+◌, ◌<◌, ◌≤◌, ◌^◌, length, IfOk};
ghost use Rattle.std.specs.List.{AllByRecursion};
ghost use Rattle.scalar_expr.specs.Expr.{nodes, nodes_in, depth_of, HasSmallLiterals};
ghost use Rattle.scalar_expr.specs.Typing.{typed};
ghost use Rattle.scalar_expr.specs.Views.{expr_of, scalars_of};
ghost use Rattle.scalar_expr.specs.Walk.{checked_of, type_from, IsPlain, Gives};

use crate::MAX_DEPTH;
use crate::deep::deep_fault;
use crate::depth::is_deeper;
use crate::fault::TypeFault;
use crate::func::Func;
use crate::scalar::Scalar;
use crate::widths::{Measure, measured};
use op_laws::{ElemType, MAX_ELEMENTS};

/// The type that a function gives on elements of the type `ty`, or its first fault in postorder,
/// as `typed` gives them, but nothing is compiled. It takes no memory and looks at each node once.
pub fn type_of(f: &Func, ty: ElemType) -> Result<ElemType, TypeFault>
    requires few { nodes_in (scalars_of f.now) ≤ MAX_ELEMENTS }
    ensures typed { result ≡ typed ty (scalars_of f.now) }
    ensures plain { IfOk result (λ _. AllByRecursion IsPlain (scalars_of f.now)) }
{
    scalar_types(f, ty)
}

// The same, scalar after scalar.
#[tactic(auto, unfolding(crate::specs::Walk::type_from))]
fn scalar_types(f: &Func, ty: ElemType) -> Result<ElemType, TypeFault>
    requires few { nodes_in (scalars_of f.now) < 2 ^ 32 }
    ensures typed { result ≡ type_from ty 0 (scalars_of f.now) }
    ensures plain { IfOk result (λ _. AllByRecursion IsPlain (scalars_of f.now)) }
{
    match f {
        Func::One(a) => {
            let x = checked(ty, 0, a)?;
            Ok(ElemType::one(x.width))
        }
        Func::Two(a, b) => {
            let x = checked(ty, 0, a)?;
            let y = checked(ty, x.after, b)?;
            Ok(ElemType::one(x.width).push(y.width))
        }
        Func::Three(a, b, c) => {
            let x = checked(ty, 0, a)?;
            let y = checked(ty, x.after, b)?;
            let z = checked(ty, y.after, c)?;
            Ok(ElemType::one(x.width).push(y.width).push(z.width))
        }
        Func::Four(a, b, c, d) => {
            let x = checked(ty, 0, a)?;
            let y = checked(ty, x.after, b)?;
            let z = checked(ty, y.after, c)?;
            let u = checked(ty, z.after, d)?;
            Ok(
                ElemType::one(x.width)
                    .push(y.width)
                    .push(z.width)
                    .push(u.width),
            )
        }
    }
}

// The width of a scalar whose first node has this place, or its first fault in postorder.
fn checked(ty: ElemType, place: u32, s: &Scalar) -> Result<Measure, TypeFault>
    requires few { place + nodes (expr_of s.now) < 2 ^ 32 }
    ensures gives { Gives result (checked_of ty place (expr_of s.now)) }
    ensures after { IfOk result (λ m. m.after ≡ place + nodes (expr_of s.now)) }
    ensures shallow { IfOk result (λ _. depth_of (expr_of s.now) ≤ MAX_DEPTH) }
    ensures small { IfOk result (λ _. HasSmallLiterals (expr_of s.now)) }
{
    if is_deeper(s, MAX_DEPTH) {
        return Err(deep_fault(ty, place, s));
    }
    measured(ty, place, s)
}
