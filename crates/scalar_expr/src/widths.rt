//! The widths of scalars that aren't too deep, or their first fault in postorder.

ghost use Rattle.std.specs.Prelude.{◌≡◌, ◌+◌, ◌<◌, ◌≤◌, ◌^◌, IfOk, Option, Some, None, length};
ghost use Rattle.scalar_expr.specs.Expr.{nodes, HasSmallLiterals, two, part as component};
ghost use Rattle.scalar_expr.specs.Typing.{pair_width, bits_width};
ghost use Rattle.scalar_expr.specs.Views.{expr_of};
ghost use Rattle.scalar_expr.specs.Walk.{walk, or_fault, Gives};

use crate::fault::TypeFault;
use crate::pair::Pair;
use crate::scalar::Scalar;
use op_laws::{ElemType, Width};

/// What is known of a scalar: its width, and the place after its nodes.
#[derive(Clone, Copy, Debug)]
pub(crate) struct Measure {
    pub(crate) width: Width,
    pub(crate) after: u32,
}

/// The width of a scalar whose first node has this place, or its first fault in postorder.
#[tactic(auto, unfolding(crate::specs::Walk::walk))]
#[cycle(measured)]
pub(crate) fn measured(ty: ElemType, place: u32, s: &Scalar) -> Result<Measure, TypeFault>
    requires few { place + nodes (expr_of s.now) < 2 ^ 32 }
    ensures gives { Gives result (walk ty place (expr_of s.now)) }
    ensures after { IfOk result (λ m. m.after ≡ place + nodes (expr_of s.now)) }
    ensures small { IfOk result (λ _. HasSmallLiterals (expr_of s.now)) }
{
    match s {
        Scalar::Lit(n) => {
            // By this it is known that the literal is a number of 64 bits.
            let _read = *n;
            Ok(Measure {
                width: Width::W64,
                after: place + 1,
            })
        }
        Scalar::Part(i) => component(ty, place, *i),
        Scalar::Add(a, b) => measured_two(ty, place, Pair::Add, a, b),
        Scalar::Sub(a, b) => measured_two(ty, place, Pair::Sub, a, b),
        Scalar::Mul(a, b) => measured_two(ty, place, Pair::Mul, a, b),
        Scalar::Min(a, b) => measured_two(ty, place, Pair::Min, a, b),
        Scalar::Max(a, b) => measured_two(ty, place, Pair::Max, a, b),
        Scalar::Less(a, b) => measured_two(ty, place, Pair::Less, a, b),
        Scalar::Same(a, b) => measured_two(ty, place, Pair::Same, a, b),
        Scalar::And(a, b) => measured_two(ty, place, Pair::And, a, b),
        Scalar::Or(a, b) => measured_two(ty, place, Pair::Or, a, b),
        Scalar::Xor(a, b) => measured_two(ty, place, Pair::Xor, a, b),
        Scalar::Cond(c, a, b) => {
            let z = measured(ty, place, c)?;
            let x = measured(ty, z.after, a)?;
            let y = measured(ty, x.after, b)?;
            Ok(Measure {
                width: x.width.wider(y.width),
                after: y.after + 1,
            })
        }
        Scalar::Wrap(a) => {
            let x = measured(ty, place, a)?;
            Ok(Measure {
                width: Width::W64,
                after: x.after + 1,
            })
        }
    }
}

// The same of an operator's node and its two parts.
#[tactic(auto, unfolding(crate::specs::Walk::walk))]
#[cycle(measured)]
fn measured_two(
    ty: ElemType,
    place: u32,
    op: Pair,
    a: &Scalar,
    b: &Scalar,
) -> Result<Measure, TypeFault>
    requires few { place + nodes (expr_of a.now) + nodes (expr_of b.now) + 1 < 2 ^ 32 }
    ensures gives { Gives result (walk ty place (two op (expr_of a.now) (expr_of b.now))) }
    ensures after { IfOk result (λ m. m.after ≡ place + nodes (expr_of a.now) + nodes (expr_of b.now) + 1) }
    ensures first_small { IfOk result (λ _. HasSmallLiterals (expr_of a.now)) }
    ensures second_small { IfOk result (λ _. HasSmallLiterals (expr_of b.now)) }
{
    let first = measured(ty, place, a)?;
    let second = measured(ty, first.after, b)?;
    pair(op, first, second)
}

#[tactic(auto, unfolding(crate::specs::Walk::walk))]
fn component(ty: ElemType, place: u32, i: u32) -> Result<Measure, TypeFault>
    requires few { place + 1 < 2 ^ 32 }
    ensures gives { Gives result (walk ty place (component i)) }
    ensures after { IfOk result (λ m. m.after ≡ place + 1) }
{
    if i as usize >= ty.len() {
        return Err(TypeFault::NoPart(place));
    }
    Ok(Measure {
        width: ty.at(i as usize),
        after: place + 1,
    })
}

// An operator's node after its parts.
fn pair(op: Pair, x: Measure, y: Measure) -> Result<Measure, TypeFault>
    requires few { y.after + 1 < 2 ^ 32 }
    ensures gives { Gives result (or_fault (pair_width op x.width y.width) (TypeFault.TooWide y.after)) }
    ensures after { IfOk result (λ m. m.after ≡ y.after + 1) }
{
    match pair_width(op, x.width, y.width) {
        None => Err(TypeFault::TooWide(y.after)),
        Some(width) => Ok(Measure {
            width,
            after: y.after + 1,
        }),
    }
}

fn pair_width(op: Pair, v: Width, w: Width) -> Option<Width>
    ensures { result ≡ pair_width op v w }
{
    match op {
        Pair::Add | Pair::Sub => v.wider(w).next(),
        Pair::Min | Pair::Max => Some(v.wider(w)),
        Pair::Mul | Pair::Less | Pair::Same => Some(Width::W64),
        Pair::And | Pair::Or | Pair::Xor => bits_width(v, w),
    }
}

fn bits_width(v: Width, w: Width) -> Option<Width>
    ensures { result ≡ bits_width v w }
{
    match (v, w) {
        (Width::W64, Width::W64) => Some(Width::W64),
        _ => None,
    }
}
