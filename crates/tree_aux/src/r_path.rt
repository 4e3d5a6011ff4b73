//! Sums along the way from the root of a rose tree.

ghost use Rattle.std.specs.Prelude.{◌≡◌, ◌⊎◌, ◌≤◌};
ghost use Rattle.op_catalog.specs.Sums.{IsSummed, sum_type, IsSumOf};
ghost use Rattle.tree_aux.specs.ComingDown.{ComesDownRose};
ghost use Rattle.tree_aux.specs.SumTrees.{single, rose_path_sum_down, path_step};
ghost use Rattle.tree_aux.specs.SumTreeLaws.{rose_path_sum_down_laws, rose_path_sum_across_laws};

use crate::sums::sum_of_two;
use op_catalog::Sum;
use op_laws::{DownOp, ElemType, Lifted, RoseDown, Tup};

/// The sum of the values above a node, in a rose tree of one number of W bits, where W is 64 or 96.
/// The result has one number of the next width.
#[derive(Clone, Copy, Debug)]
pub struct RPath<const W: u32> {
    sum: Sum<W>,
    ghost wide: { 64 ≤ W },
}

impl<const W: u32> RPath<W> {
    /// The operator.
    pub fn new() -> Self
        requires { (W ≡ 64) ⊎ (W ≡ 96) }
        ensures { ComesDownRose (⟦<RPath<W> as DownOp>⟧.takes result) (⟦<RPath<W> as DownOp>⟧.finished result) (⟦<RPath<W> as DownOp>⟧.downward result) path_step }
    {
        RPath { sum: Sum::new() }
    }
}

impl<const W: u32> DownOp for RPath<W> {
    type V = i128;

    type D = i128;

    ghost takes = { λ _. IsSummed W };

    ghost gives = { λ _ _. sum_type W };

    ghost downward = { λ _. rose_path_sum_down };

    ghost finished = { λ _. single };

    ghost fits = { λ _. IsSumOf W };

    ghost fits_way = { λ _. IsSumOf W };

    fn accepts(&self, ty: ElemType) -> bool {
        self.sum.accepts(ty)
    }

    fn result(&self, ty: ElemType) -> ElemType {
        self.sum.result(ty)
    }

    #[inline(always)]
    fn start(&self, c: i64) -> i128 {
        c as i128
    }

    #[inline(always)]
    fn phi_l(&self, b: Tup) -> i128 {
        self.sum.lift(b)
    }

    #[inline(always)]
    fn phi_r(&self, _b: Tup) -> i128 {
        0
    }

    #[inline(always)]
    fn psi_u(&self, a: i128, na: u32, b: i128, nb: u32) -> i128 {
        sum_of_two::<W>(a, na, b, nb)
    }

    #[inline(always)]
    fn psi_d(&self, c: i128, nc: u32, d: i128, nd: u32) -> i128 {
        sum_of_two::<W>(c, nc, d, nd)
    }

    #[inline(always)]
    fn finish(&self, c: i128, n: u32) -> Tup {
        self.sum.finish(c, n)
    }

    ghost downward_laws = { λ op. rose_path_sum_down_laws W op.wide };
}

impl<const W: u32> RoseDown for RPath<W> {
    ghost across_laws = { λ _. rose_path_sum_across_laws };
}
