//! The operators that have a unit, each at its width.

ghost use Rattle.std.specs.Prelude.{◌≡◌, [], ◌∷◌, not, length, IsTrue, IsOk};
ghost use Rattle.op_catalog.specs.Catalog.{is_end, typed_of};
ghost use Rattle.op_catalog.specs.Monoids.{IsListMonoid};

use crate::affine::Affine;
use crate::bit_and::And;
use crate::bit_or::Or;
use crate::bit_xor::Xor;
use crate::list_op::ListOp;
use crate::max::Max;
use crate::min::Min;
use crate::mss::Mss;
use crate::mul::Mul;
use crate::sum::Sum;
use op_laws::{ElemType, Width};

/// An operator that has a unit. `with_list_monoid!` makes a call at its type.
#[derive(Clone, Copy, Debug)]
pub enum ListMonoid {
    Sum64(Sum<64>),
    Sum96(Sum<96>),
    Mul(Mul),
    Min64(Min<64>),
    Min96(Min<96>),
    Min128(Min<128>),
    Max64(Max<64>),
    Max96(Max<96>),
    Max128(Max<128>),
    And(And),
    Or(Or),
    Xor(Xor),
    Mss64(Mss<64>),
    Mss96(Mss<96>),
    Affine(Affine),
}

impl ListMonoid {
    /// The operator of this name for elements of this type.
    pub fn of(name: ListOp, ty: ElemType) -> ListMonoid
        requires typed { IsOk (typed_of name ty) }
        requires unit { IsTrue (not (is_end name)) }
        ensures { IsListMonoid result name ty }
    {
        match name {
            ListOp::Add => sum_at(ty),
            ListOp::Mul => ListMonoid::Mul(Mul::new()),
            ListOp::Min => min_at(ty),
            ListOp::Max => max_at(ty),
            ListOp::And => ListMonoid::And(And::new()),
            ListOp::Or => ListMonoid::Or(Or::new()),
            ListOp::Xor => ListMonoid::Xor(Xor::new()),
            ListOp::Mss => mss_at(ty),
            ListOp::Affine => ListMonoid::Affine(Affine::new()),
            ListOp::First | ListOp::Last => unreachable!(),
        }
    }
}

fn sum_at(ty: ElemType) -> ListMonoid
    requires { IsOk (typed_of ListOp.Add ty) }
    ensures { IsListMonoid result ListOp.Add ty }
{
    match only_width(ty) {
        Width::W64 => ListMonoid::Sum64(Sum::new()),
        Width::W96 => ListMonoid::Sum96(Sum::new()),
        Width::W128 => unreachable!(),
    }
}

fn min_at(ty: ElemType) -> ListMonoid
    requires { IsOk (typed_of ListOp.Min ty) }
    ensures { IsListMonoid result ListOp.Min ty }
{
    match only_width(ty) {
        Width::W64 => ListMonoid::Min64(Min::new()),
        Width::W96 => ListMonoid::Min96(Min::new()),
        Width::W128 => ListMonoid::Min128(Min::new()),
    }
}

fn max_at(ty: ElemType) -> ListMonoid
    requires { IsOk (typed_of ListOp.Max ty) }
    ensures { IsListMonoid result ListOp.Max ty }
{
    match only_width(ty) {
        Width::W64 => ListMonoid::Max64(Max::new()),
        Width::W96 => ListMonoid::Max96(Max::new()),
        Width::W128 => ListMonoid::Max128(Max::new()),
    }
}

fn mss_at(ty: ElemType) -> ListMonoid
    requires { IsOk (typed_of ListOp.Mss ty) }
    ensures { IsListMonoid result ListOp.Mss ty }
{
    match only_width(ty) {
        Width::W64 => ListMonoid::Mss64(Mss::new()),
        Width::W96 => ListMonoid::Mss96(Mss::new()),
        Width::W128 => unreachable!(),
    }
}

// The width of a type of one number.
fn only_width(ty: ElemType) -> Width
    requires { length ty ≡ 1 }
    ensures { ty ≡ result ∷ [] }
{
    ty.at(0)
}
