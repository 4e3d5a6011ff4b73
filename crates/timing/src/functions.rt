//! The functions on elements that are timed.

ghost use Rattle.std.specs.Prelude.{◌≡◌, ◌≤◌, IfOk};
ghost use Rattle.scalar_expr.specs.Expr.{nodes};
ghost use Rattle.scalar_expr.specs.Views.{expr_of};

use anyhow::Result;
use op_laws::ElemType;
use scalar_expr::{Func, Scalar, Typed, typed};
use std::alloc::{AllocError, Global};

/// `(* #0 #0)`.
pub(crate) fn square(alloc: Global, ty: ElemType) -> Result<Typed>
    ensures { IfOk result (λ f. f.takes ≡ ty) }
{
    Ok(typed(alloc, &Func::One(product(alloc)?), ty)?)
}

/// `(= (and #0 1) 0)`.
pub(crate) fn even(alloc: Global, ty: ElemType) -> Result<Typed>
    ensures { IfOk result (λ f. f.takes ≡ ty) }
{
    Ok(typed(alloc, &Func::One(same(alloc)?), ty)?)
}

/// `(wrap (+ (* #0 3) (min #0 7)))`.
pub(crate) fn mixed(alloc: Global, ty: ElemType) -> Result<Typed>
    ensures { IfOk result (λ f. f.takes ≡ ty) }
{
    Ok(typed(alloc, &Func::One(wrapped(alloc)?), ty)?)
}

fn product(alloc: Global) -> Result<Scalar, AllocError>
    ensures { IfOk result (λ s. nodes (expr_of s) ≤ 8) }
{
    Ok(Scalar::Mul(part(alloc)?, part(alloc)?))
}

fn same(alloc: Global) -> Result<Scalar, AllocError>
    ensures { IfOk result (λ s. nodes (expr_of s) ≤ 8) }
{
    let low = Box::new(alloc, Scalar::And(part(alloc)?, literal(alloc, 1)?))?;
    Ok(Scalar::Same(low, literal(alloc, 0)?))
}

fn wrapped(alloc: Global) -> Result<Scalar, AllocError>
    ensures { IfOk result (λ s. nodes (expr_of s) ≤ 8) }
{
    let three = Box::new(alloc, Scalar::Mul(part(alloc)?, literal(alloc, 3)?))?;
    let least = Box::new(alloc, Scalar::Min(part(alloc)?, literal(alloc, 7)?))?;
    Ok(Scalar::Wrap(Box::new(alloc, Scalar::Add(three, least))?))
}

fn part(alloc: Global) -> Result<Box<Scalar>, AllocError>
    ensures { IfOk result (λ s. nodes (expr_of s.value) ≡ 1) }
{
    Ok(Box::new(alloc, Scalar::Part(0))?)
}

fn literal(alloc: Global, n: i64) -> Result<Box<Scalar>, AllocError>
    ensures { IfOk result (λ s. nodes (expr_of s.value) ≡ 1) }
{
    Ok(Box::new(alloc, Scalar::Lit(n))?)
}
