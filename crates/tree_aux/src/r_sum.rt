//! Sums of rose trees.

ghost use Rattle.std.specs.Prelude.{◌≡◌, ◌⊎◌, pos};
ghost use Rattle.op_laws.specs.RoseFolds.{ReducesRose};
ghost use Rattle.op_catalog.specs.Sums.{IsSummed, sum_type, IsSumOf};
ghost use Rattle.tree_aux.specs.SumTrees.{single, rose_sum_up, rose_sum};
ghost use Rattle.tree_aux.specs.SumTreeLaws.{rose_sum_up_laws, rose_sum_nothing_laws};

use crate::sums::sum_of_three;
use op_catalog::Sum;
use op_laws::{ElemType, Lifted, RoseOp, TreeOp, Tup};

/// The sum of all values of a rose tree of one number of W bits, where W is 64 or 96. The result has
/// one number of the next width.
#[derive(Clone, Copy, Debug)]
pub struct RSum<const W: u32>(Sum<W>);

impl<const W: u32> RSum<W> {
    /// The operator.
    pub fn new() -> Self
        requires { (W ≡ 64) ⊎ (W ≡ 96) }
        ensures { ReducesRose (⟦<RSum<W> as TreeOp>⟧.takes result) (⟦<RSum<W> as TreeOp>⟧.finished result) (⟦<RSum<W> as RoseOp>⟧.nothing result) (⟦<RSum<W> as TreeOp>⟧.upward result) (λ t. single (rose_sum t)) }
    {
        RSum(Sum::new())
    }
}

impl<const W: u32> TreeOp for RSum<W> {
    type V = i128;

    type G = i128;

    ghost takes = { λ _. IsSummed W };

    ghost gives = { λ _ _. sum_type W };

    ghost upward = { λ _. rose_sum_up };

    ghost finished = { λ _. single };

    ghost fits = { λ _. IsSumOf W };

    ghost fits_hole = { λ _. IsSumOf W };

    fn accepts(&self, ty: ElemType) -> bool {
        self.0.accepts(ty)
    }

    fn result(&self, ty: ElemType) -> ElemType {
        self.0.result(ty)
    }

    #[inline(always)]
    fn leaf(&self, _e: Tup) -> i128 {
        0
    }

    #[inline(always)]
    fn phi(&self, b: Tup) -> i128 {
        self.0.lift(b)
    }

    #[inline(always)]
    fn psi_n(&self, l: i128, nl: u32, g: i128, ng: u32, r: i128, nr: u32) -> i128 {
        sum_of_three::<W>(l, nl, g, ng, r, nr)
    }

    #[inline(always)]
    fn psi_l(&self, l: i128, nl: u32, g: i128, ng: u32, r: i128, nr: u32) -> i128 {
        sum_of_three::<W>(l, nl, g, ng, r, nr)
    }

    #[inline(always)]
    fn psi_r(&self, l: i128, nl: u32, g: i128, ng: u32, r: i128, nr: u32) -> i128 {
        sum_of_three::<W>(l, nl, g, ng, r, nr)
    }

    #[inline(always)]
    fn finish(&self, v: i128, n: u32) -> Tup {
        self.0.finish(v, n)
    }

    ghost upward_laws = { λ _. rose_sum_up_laws W };
}

impl<const W: u32> RoseOp for RSum<W> {
    ghost nothing = { λ _. pos 0 };

    #[inline(always)]
    fn none(&self) -> i128 {
        0
    }

    ghost nothing_laws = { λ _. rose_sum_nothing_laws W };
}
