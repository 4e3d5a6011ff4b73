//! Sums of trees.

ghost use Rattle.std.specs.Prelude.{◌≡◌, ◌⊎◌};
ghost use Rattle.op_laws.specs.TreeFolds.{ReducesTree};
ghost use Rattle.op_catalog.specs.Sums.{IsSummed, sum_type, IsSumOf};
ghost use Rattle.tree_aux.specs.SumTrees.{single, sum_up, tree_sum};
ghost use Rattle.tree_aux.specs.SumTreeLaws.{sum_up_laws};

use crate::sums::sum_of_three;
use op_catalog::Sum;
use op_laws::{ElemType, Lifted, TreeOp, Tup};

/// The sum of all values of a binary tree of one number of W bits, where W is 64 or 96. The result
/// has one number of the next width.
#[derive(Clone, Copy, Debug)]
pub struct TSum<const W: u32>(Sum<W>);

impl<const W: u32> TSum<W> {
    /// The operator.
    pub fn new() -> Self
        requires { (W ≡ 64) ⊎ (W ≡ 96) }
        ensures { ReducesTree (⟦<TSum<W> as TreeOp>⟧.takes result) (⟦<TSum<W> as TreeOp>⟧.finished result) (⟦<TSum<W> as TreeOp>⟧.upward result) (λ t. single (tree_sum t)) }
    {
        TSum(Sum::new())
    }
}

impl<const W: u32> TreeOp for TSum<W> {
    type V = i128;

    type G = i128;

    ghost takes = { λ _. IsSummed W };

    ghost gives = { λ _ _. sum_type W };

    ghost upward = { λ _. sum_up };

    ghost finished = { λ _. single };

    ghost fits = { λ _. IsSumOf W };

    ghost fits_hole = { λ _. IsSumOf W };

    fn accepts(&self, ty: ElemType) -> bool {
        self.0.accepts(ty)
    }

    fn result(&self, ty: ElemType) -> ElemType {
        self.0.result(ty)
    }

    #[inline(always)]
    fn leaf(&self, e: Tup) -> i128 {
        self.0.lift(e)
    }

    #[inline(always)]
    fn phi(&self, b: Tup) -> i128 {
        self.0.lift(b)
    }

    #[inline(always)]
    fn psi_n(&self, l: i128, nl: u32, g: i128, ng: u32, r: i128, nr: u32) -> i128 {
        sum_of_three::<W>(l, nl, g, ng, r, nr)
    }

    #[inline(always)]
    fn psi_l(&self, l: i128, nl: u32, g: i128, ng: u32, r: i128, nr: u32) -> i128 {
        sum_of_three::<W>(l, nl, g, ng, r, nr)
    }

    #[inline(always)]
    fn psi_r(&self, l: i128, nl: u32, g: i128, ng: u32, r: i128, nr: u32) -> i128 {
        sum_of_three::<W>(l, nl, g, ng, r, nr)
    }

    #[inline(always)]
    fn finish(&self, v: i128, n: u32) -> Tup {
        self.0.finish(v, n)
    }

    ghost upward_laws = { λ _. sum_up_laws W };
}
