//! Preorder numbers.

ghost use Rattle.std.specs.Prelude.{◌≡◌, ◌⊎◌, ◌≤◌};
ghost use Rattle.op_catalog.specs.Sums.{IsSummed, sum_type, IsSumOf};
ghost use Rattle.tree_aux.specs.ComingDown.{ComesDown};
ghost use Rattle.tree_aux.specs.SumTrees.{single, pre_down, pre_left, pre_right};
ghost use Rattle.tree_aux.specs.SumTreeLaws.{pre_down_laws};

use crate::sums::sum_of_two;
use op_catalog::Sum;
use op_laws::{DownOp, ElemType, Lifted, Tup};

/// The preorder number of a node, in a binary tree of one number of W bits, where W is 64 or 96, whose
/// values are the sizes of the left subtrees. The result has one number of the next width.
#[derive(Clone, Copy, Debug)]
pub struct Pre<const W: u32> {
    sum: Sum<W>,
    ghost wide: { 64 ≤ W },
}

impl<const W: u32> Pre<W> {
    /// The operator.
    pub fn new() -> Self
        requires { (W ≡ 64) ⊎ (W ≡ 96) }
        ensures { ComesDown (⟦<Pre<W> as DownOp>⟧.takes result) (⟦<Pre<W> as DownOp>⟧.finished result) (⟦<Pre<W> as DownOp>⟧.downward result) pre_left pre_right }
    {
        Pre { sum: Sum::new() }
    }
}

impl<const W: u32> DownOp for Pre<W> {
    type V = i128;

    type D = i128;

    ghost takes = { λ _. IsSummed W };

    ghost gives = { λ _ _. sum_type W };

    ghost downward = { λ _. pre_down };

    ghost finished = { λ _. single };

    ghost fits = { λ _. IsSumOf W };

    ghost fits_way = { λ _. IsSumOf W };

    fn accepts(&self, ty: ElemType) -> bool {
        self.sum.accepts(ty)
    }

    fn result(&self, ty: ElemType) -> ElemType {
        self.sum.result(ty)
    }

    #[inline(always)]
    fn start(&self, c: i64) -> i128 {
        c as i128
    }

    #[inline(always)]
    fn phi_l(&self, _b: Tup) -> i128 {
        1
    }

    #[inline(always)]
    fn phi_r(&self, b: Tup) -> i128 {
        1 + self.sum.lift(b)
    }

    #[inline(always)]
    fn psi_u(&self, a: i128, na: u32, b: i128, nb: u32) -> i128 {
        sum_of_two::<W>(a, na, b, nb)
    }

    #[inline(always)]
    fn psi_d(&self, c: i128, nc: u32, d: i128, nd: u32) -> i128 {
        sum_of_two::<W>(c, nc, d, nd)
    }

    #[inline(always)]
    fn finish(&self, c: i128, n: u32) -> Tup {
        self.sum.finish(c, n)
    }

    ghost downward_laws = { λ op. pre_down_laws W op.wide };
}
