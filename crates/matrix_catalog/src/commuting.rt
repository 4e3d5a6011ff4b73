//! The commutative operators on lists, each at its width.

ghost use Rattle.std.specs.Prelude.{IsTrue, IsOk};
ghost use Rattle.op_catalog.specs.Catalog.{is_commutative_pair, typed_of};
ghost use Rattle.matrix_catalog.specs.Commuting.{IsCommuting};

use crate::width::only_width;
use op_catalog::{And, ListOp, Max, Min, Mul, Or, Sum, Xor};
use op_laws::{ElemType, Width};

/// A commutative operator at its own type.
#[derive(Clone, Copy, Debug)]
pub enum Commuting {
    Sum64(Sum<64>),
    Sum96(Sum<96>),
    Mul(Mul),
    Min64(Min<64>),
    Min96(Min<96>),
    Min128(Min<128>),
    Max64(Max<64>),
    Max96(Max<96>),
    Max128(Max<128>),
    And(And),
    Or(Or),
    Xor(Xor),
}

impl Commuting {
    /// The operator of both names for elements of this type.
    pub fn of(down: ListOp, across: ListOp, ty: ElemType) -> Commuting
        requires commutative { IsTrue (is_commutative_pair down across) }
        requires typed { IsOk (typed_of down ty) }
        ensures { IsCommuting result down across ty }
    {
        match (down, across) {
            (ListOp::Add, ListOp::Add) => sum_at(ty),
            (ListOp::Mul, ListOp::Mul) => Commuting::Mul(Mul::new()),
            (ListOp::Min, ListOp::Min) => min_at(ty),
            (ListOp::Max, ListOp::Max) => max_at(ty),
            (ListOp::And, ListOp::And) => Commuting::And(And::new()),
            (ListOp::Or, ListOp::Or) => Commuting::Or(Or::new()),
            (ListOp::Xor, ListOp::Xor) => Commuting::Xor(Xor::new()),
            _ => unreachable!(),
        }
    }
}

fn sum_at(ty: ElemType) -> Commuting
    requires { IsOk (typed_of ListOp.Add ty) }
    ensures { IsCommuting result ListOp.Add ListOp.Add ty }
{
    match only_width(ty) {
        Width::W64 => Commuting::Sum64(Sum::new()),
        Width::W96 => Commuting::Sum96(Sum::new()),
        Width::W128 => unreachable!(),
    }
}

fn min_at(ty: ElemType) -> Commuting
    requires { IsOk (typed_of ListOp.Min ty) }
    ensures { IsCommuting result ListOp.Min ListOp.Min ty }
{
    match only_width(ty) {
        Width::W64 => Commuting::Min64(Min::new()),
        Width::W96 => Commuting::Min96(Min::new()),
        Width::W128 => Commuting::Min128(Min::new()),
    }
}

fn max_at(ty: ElemType) -> Commuting
    requires { IsOk (typed_of ListOp.Max ty) }
    ensures { IsCommuting result ListOp.Max ListOp.Max ty }
{
    match only_width(ty) {
        Width::W64 => Commuting::Max64(Max::new()),
        Width::W96 => Commuting::Max96(Max::new()),
        Width::W128 => Commuting::Max128(Max::new()),
    }
}
