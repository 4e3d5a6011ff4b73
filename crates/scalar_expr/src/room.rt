//! How many numbers a function holds at once, and whether it stays with 64 bits.

ghost use Rattle.std.specs.Prelude.{◌≡◌, ◌≤◌, ◌+◌, max};
ghost use Rattle.std.specs.List.{AllByRecursion, list_all};
ghost use Rattle.scalar_expr.specs.Columns.{columns_needed, columns_held, room_of, stays_narrow, is_narrow, is_w64};
ghost use Rattle.scalar_expr.specs.Expr.{depth_of};
ghost use Rattle.scalar_expr.specs.Views.{expr_of, scalars_of};
ghost use Rattle.scalar_expr.specs.Walk.{IsPlain};

use crate::MAX_DEPTH;
use crate::func::Func;
use crate::scalar::Scalar;
use op_laws::{ElemType, Width};

/// How many numbers a function holds at once.
#[tactic(auto, using(crate::proofs::Rooms::few_needed))]
pub(crate) fn room_of(f: &Func) -> usize
    requires { AllByRecursion IsPlain (scalars_of f.now) }
    ensures value { result ≡ room_of (scalars_of f.now) }
    ensures small { result ≤ 64 }
{
    match f {
        Func::One(a) => root_room(0, a),
        Func::Two(a, b) => root_room(0, a).max(root_room(1, b)),
        Func::Three(a, b, c) => root_room(0, a).max(root_room(1, b)).max(root_room(2, c)),
        Func::Four(a, b, c, d) => root_room(0, a)
            .max(root_room(1, b))
            .max(root_room(2, c))
            .max(root_room(3, d)),
    }
}

// The same of one scalar, after so many others.
#[tactic(auto, using(crate::proofs::Rooms::few_needed))]
fn root_room(k: usize, s: &Scalar) -> usize
    requires few { k ≤ 3 }
    requires shallow { depth_of (expr_of s.now) ≤ MAX_DEPTH }
    ensures value { result ≡ k + max 1 (columns_needed (expr_of s.now)) }
    ensures small { result ≤ 64 }
{
    k + columns_needed(s).max(1)
}

#[tactic(auto, using(crate::proofs::Rooms::few_needed))]
fn columns_needed(s: &Scalar) -> usize
    requires { depth_of (expr_of s.now) ≤ MAX_DEPTH }
    ensures { result ≡ columns_needed (expr_of s.now) }
{
    match s {
        Scalar::Lit(_) | Scalar::Part(_) => 0,
        Scalar::Add(a, b)
        | Scalar::Sub(a, b)
        | Scalar::Mul(a, b)
        | Scalar::Min(a, b)
        | Scalar::Max(a, b)
        | Scalar::Less(a, b)
        | Scalar::Same(a, b)
        | Scalar::And(a, b)
        | Scalar::Or(a, b)
        | Scalar::Xor(a, b) => {
            let second = columns_held(a) + columns_needed(b);
            columns_needed(a).max(second).max(1)
        }
        Scalar::Cond(c, a, b) => {
            let first = columns_held(c) + columns_needed(a);
            let second = columns_held(c) + columns_held(a) + columns_needed(b);
            columns_needed(c).max(first.max(second)).max(1)
        }
        Scalar::Wrap(a) => columns_needed(a).max(1),
    }
}

fn columns_held(s: &Scalar) -> usize
    ensures value { result ≡ columns_held (expr_of s.now) }
    ensures few { result ≤ 1 }
{
    match s {
        Scalar::Lit(_) | Scalar::Part(_) => 0,
        _ => 1,
    }
}

/// Whether a function on elements of the type `ty` stays with 64 bits.
pub(crate) fn is_narrow(f: &Func, ty: ElemType) -> bool
    ensures { result ≡ is_narrow ty (scalars_of f.now) }
{
    all_w64(ty) && all_narrow(f)
}

fn all_narrow(f: &Func) -> bool
    ensures { result ≡ list_all stays_narrow (scalars_of f.now) }
{
    match f {
        Func::One(a) => stays_narrow(a),
        Func::Two(a, b) => stays_narrow(a) && stays_narrow(b),
        Func::Three(a, b, c) => stays_narrow(a) && stays_narrow(b) && stays_narrow(c),
        Func::Four(a, b, c, d) => {
            stays_narrow(a) && stays_narrow(b) && stays_narrow(c) && stays_narrow(d)
        }
    }
}

fn all_w64(ty: ElemType) -> bool
    ensures { result ≡ list_all is_w64 ty }
{
    for k in 0..ty.len() {
        match ty.at(k) {
            Width::W64 => {}
            Width::W96 | Width::W128 => return false,
        }
    }
    true
}

fn stays_narrow(s: &Scalar) -> bool
    ensures { result ≡ stays_narrow (expr_of s.now) }
{
    match s {
        Scalar::Lit(_) | Scalar::Part(_) => true,
        Scalar::Add(_, _) | Scalar::Sub(_, _) => false,
        Scalar::Mul(a, b)
        | Scalar::Min(a, b)
        | Scalar::Max(a, b)
        | Scalar::Less(a, b)
        | Scalar::Same(a, b)
        | Scalar::And(a, b)
        | Scalar::Or(a, b)
        | Scalar::Xor(a, b) => stays_narrow(a) && stays_narrow(b),
        Scalar::Cond(c, a, b) => stays_narrow(c) && stays_narrow(a) && stays_narrow(b),
        Scalar::Wrap(a) => match &**a {
            Scalar::Add(x, y) | Scalar::Sub(x, y) => stays_narrow(x) && stays_narrow(y),
            _ => stays_narrow(a),
        },
    }
}
