//! Functions are compiled.

ghost use Rattle.std.specs.Prelude.{◌≡◌, ◌≤◌, [], length, IfOk};
ghost use Rattle.std.specs.List.{AllByRecursion};
ghost use Rattle.scalar_expr.specs.Columns.{room_of};
ghost use Rattle.scalar_expr.specs.Steps.{IsBounded, IsCode};
ghost use Rattle.scalar_expr.specs.Views.{scalars_of};

use crate::emit::{Target, emit_root};
use crate::func::Func;
use crate::step::Step;
use std::alloc::{AllocError, Global};

/// The steps of a function, which leave the values of its scalars on the stack, in order.
pub(crate) fn compile(alloc: Global, f: &Func, target: &Target) -> Result<Vec<Step>, AllocError>
    requires bounded { AllByRecursion (IsBounded target.now.ty target.now.narrow) (scalars_of f.now) }
    requires room { room_of (scalars_of f.now) ≤ target.now.room }
    requires small { target.now.room ≤ 64 }
    ensures { IfOk result (λ code. IsCode target.now.ty target.now.room target.now.narrow (scalars_of f.now) code.items) }
{
    let mut code = Vec::new(alloc);
    match f {
        Func::One(a) => emit_root(&mut code, target, 0, a)?,
        Func::Two(a, b) => {
            emit_root(&mut code, target, 0, a)?;
            emit_root(&mut code, target, 1, b)?;
        }
        Func::Three(a, b, c) => {
            emit_root(&mut code, target, 0, a)?;
            emit_root(&mut code, target, 1, b)?;
            emit_root(&mut code, target, 2, c)?;
        }
        Func::Four(a, b, c, d) => {
            emit_root(&mut code, target, 0, a)?;
            emit_root(&mut code, target, 1, b)?;
            emit_root(&mut code, target, 2, c)?;
            emit_root(&mut code, target, 3, d)?;
        }
    }
    Ok(code)
}
