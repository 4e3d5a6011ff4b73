//! Greatest values of rose trees.

ghost use Rattle.std.specs.Prelude.{◌≡◌, ◌⊎◌, None, [], ◌∷◌};
ghost use Rattle.std.specs.Int.{int_max};
ghost use Rattle.op_laws.specs.RoseFolds.{ReducesRose};
ghost use Rattle.op_catalog.specs.Bounds.{IsBounded, IsInWidth};
ghost use Rattle.tree_aux.specs.BoundTrees.{rose_bound_up, rose_bound, single_or_naught};
ghost use Rattle.tree_aux.specs.BoundTreeLaws.{max_choice, MayBeInWidth, rose_bound_up_laws, rose_bound_nothing_laws};

use crate::options::{greatest, one_or_naught};
use op_catalog::Max;
use op_laws::{ElemType, Lifted, RoseOp, TreeOp, Tup};

/// The greatest value of a rose tree of one number of W bits, where W is 64, 96 or 128.
#[derive(Clone, Copy, Debug)]
pub struct RMax<const W: u32>(Max<W>);

impl<const W: u32> RMax<W> {
    /// The operator.
    pub fn new() -> Self
        requires { (W ≡ 64) ⊎ (W ≡ 96) ⊎ (W ≡ 128) }
        ensures { ReducesRose (⟦<RMax<W> as TreeOp>⟧.takes result) (⟦<RMax<W> as TreeOp>⟧.finished result) (⟦<RMax<W> as RoseOp>⟧.nothing result) (⟦<RMax<W> as TreeOp>⟧.upward result) (λ t. rose_bound int_max t ∷ []) }
    {
        RMax(Max::new())
    }
}

impl<const W: u32> TreeOp for RMax<W> {
    type V = Option<i128>;

    type G = Option<i128>;

    ghost takes = { λ _. IsBounded W };

    ghost gives = { λ _ ty. ty };

    ghost upward = { λ _. rose_bound_up int_max };

    ghost finished = { λ _. single_or_naught };

    ghost fits = { λ _. MayBeInWidth W };

    ghost fits_hole = { λ _. MayBeInWidth W };

    fn accepts(&self, ty: ElemType) -> bool {
        self.0.accepts(ty)
    }

    fn result(&self, ty: ElemType) -> ElemType {
        self.0.result(ty)
    }

    #[inline(always)]
    fn leaf(&self, _e: Tup) -> Option<i128> {
        None
    }

    #[inline(always)]
    fn phi(&self, b: Tup) -> Option<i128> {
        Some(self.0.lift(b))
    }

    #[inline(always)]
    fn psi_n(
        &self,
        l: Option<i128>,
        _nl: u32,
        g: Option<i128>,
        _ng: u32,
        r: Option<i128>,
        _nr: u32,
    ) -> Option<i128> {
        greatest(greatest(l, g), r)
    }

    #[inline(always)]
    fn psi_l(
        &self,
        l: Option<i128>,
        _nl: u32,
        g: Option<i128>,
        _ng: u32,
        r: Option<i128>,
        _nr: u32,
    ) -> Option<i128> {
        greatest(greatest(l, g), r)
    }

    #[inline(always)]
    fn psi_r(
        &self,
        l: Option<i128>,
        _nl: u32,
        g: Option<i128>,
        _ng: u32,
        r: Option<i128>,
        _nr: u32,
    ) -> Option<i128> {
        greatest(greatest(l, g), r)
    }

    #[inline(always)]
    fn finish(&self, v: Option<i128>, _n: u32) -> Tup {
        one_or_naught(v)
    }

    ghost upward_laws = { λ _. rose_bound_up_laws int_max max_choice W };
}

impl<const W: u32> RoseOp for RMax<W> {
    ghost nothing = { λ _. None };

    #[inline(always)]
    fn none(&self) -> Option<i128> {
        None
    }

    ghost nothing_laws = { λ _. rose_bound_nothing_laws int_max max_choice W };
}
