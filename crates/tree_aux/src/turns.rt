//! Turns to the left on the way from the root.

ghost use Rattle.op_catalog.specs.Sums.{IsSumOf};
ghost use Rattle.tree_aux.specs.ComingDown.{ComesDown};
ghost use Rattle.tree_aux.specs.SumTrees.{single, IsAny, turns_type, turns_down, turns_left, turns_right};
ghost use Rattle.tree_aux.specs.SumTreeLaws.{turns_down_laws};

use crate::sums::sum_of_two;
use op_laws::{DownOp, ElemType, Tup, Width};

/// How often the way from the root goes to the left, in a binary tree of elements of any type. The
/// result has one number of w96.
#[derive(Clone, Copy, Debug)]
pub struct Turns(());

impl Turns {
    /// The operator.
    pub fn new() -> Self
        ensures { ComesDown (⟦<Turns as DownOp>⟧.takes result) (⟦<Turns as DownOp>⟧.finished result) (⟦<Turns as DownOp>⟧.downward result) turns_left turns_right }
    {
        Turns(())
    }
}

impl DownOp for Turns {
    type V = i128;

    type D = i128;

    ghost takes = { λ _. IsAny };

    ghost gives = { λ _ _. turns_type };

    ghost downward = { λ _. turns_down };

    ghost finished = { λ _. single };

    ghost fits = { λ _. IsSumOf 64 };

    ghost fits_way = { λ _. IsSumOf 64 };

    fn accepts(&self, _ty: ElemType) -> bool {
        true
    }

    fn result(&self, _ty: ElemType) -> ElemType {
        ElemType::one(Width::W96)
    }

    #[inline(always)]
    fn start(&self, c: i64) -> i128 {
        c as i128
    }

    #[inline(always)]
    fn phi_l(&self, _b: Tup) -> i128 {
        1
    }

    #[inline(always)]
    fn phi_r(&self, _b: Tup) -> i128 {
        0
    }

    #[inline(always)]
    fn psi_u(&self, a: i128, na: u32, b: i128, nb: u32) -> i128 {
        sum_of_two::<64>(a, na, b, nb)
    }

    #[inline(always)]
    fn psi_d(&self, c: i128, nc: u32, d: i128, nd: u32) -> i128 {
        sum_of_two::<64>(c, nc, d, nd)
    }

    #[inline(always)]
    fn finish(&self, c: i128, _n: u32) -> Tup {
        Tup::one(c)
    }

    ghost downward_laws = { λ _. turns_down_laws };
}
