//! Least values of trees.

ghost use Rattle.std.specs.Prelude.{◌≡◌, ◌⊎◌, [], ◌∷◌};
ghost use Rattle.std.specs.Int.{int_min};
ghost use Rattle.op_laws.specs.TreeFolds.{ReducesTree};
ghost use Rattle.op_catalog.specs.Bounds.{IsBounded, IsInWidth};
ghost use Rattle.tree_aux.specs.BoundTrees.{bound_up, tree_bound};
ghost use Rattle.tree_aux.specs.BoundTreeLaws.{min_choice, bound_up_laws};

use op_catalog::Min;
use op_laws::{ElemType, Lifted, TreeOp, Tup};

/// The least value of a binary tree of one number of W bits, where W is 64, 96 or 128.
#[derive(Clone, Copy, Debug)]
pub struct TMin<const W: u32>(Min<W>);

impl<const W: u32> TMin<W> {
    /// The operator.
    pub fn new() -> Self
        requires { (W ≡ 64) ⊎ (W ≡ 96) ⊎ (W ≡ 128) }
        ensures { ReducesTree (⟦<TMin<W> as TreeOp>⟧.takes result) (⟦<TMin<W> as TreeOp>⟧.finished result) (⟦<TMin<W> as TreeOp>⟧.upward result) (λ t. tree_bound int_min t ∷ []) }
    {
        TMin(Min::new())
    }
}

impl<const W: u32> TreeOp for TMin<W> {
    type V = i128;

    type G = i128;

    ghost takes = { λ _. IsBounded W };

    ghost gives = { λ _ ty. ty };

    ghost upward = { λ _. bound_up int_min };

    ghost finished = { λ _. (λ c. c ∷ []) };

    ghost fits = { λ _. IsInWidth W };

    ghost fits_hole = { λ _. IsInWidth W };

    fn accepts(&self, ty: ElemType) -> bool {
        self.0.accepts(ty)
    }

    fn result(&self, ty: ElemType) -> ElemType {
        self.0.result(ty)
    }

    #[inline(always)]
    fn leaf(&self, e: Tup) -> i128 {
        self.0.lift(e)
    }

    #[inline(always)]
    fn phi(&self, b: Tup) -> i128 {
        self.0.lift(b)
    }

    #[inline(always)]
    fn psi_n(&self, l: i128, _nl: u32, g: i128, _ng: u32, r: i128, _nr: u32) -> i128 {
        l.min(g).min(r)
    }

    #[inline(always)]
    fn psi_l(&self, l: i128, _nl: u32, g: i128, _ng: u32, r: i128, _nr: u32) -> i128 {
        l.min(g).min(r)
    }

    #[inline(always)]
    fn psi_r(&self, l: i128, _nl: u32, g: i128, _ng: u32, r: i128, _nr: u32) -> i128 {
        l.min(g).min(r)
    }

    #[inline(always)]
    fn finish(&self, v: i128, n: u32) -> Tup {
        self.0.finish(v, n)
    }

    ghost upward_laws = { λ _. bound_up_laws int_min min_choice W };
}
