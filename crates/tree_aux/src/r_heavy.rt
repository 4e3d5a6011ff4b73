//! Greatest sums along paths from the root of a rose tree.

ghost use Rattle.std.specs.Prelude.{◌≡◌, ◌⊎◌, None};
ghost use Rattle.op_laws.specs.RoseFolds.{ReducesRose};
ghost use Rattle.op_catalog.specs.Sums.{IsSummed, sum_type};
ghost use Rattle.tree_aux.specs.SumTrees.{single};
ghost use Rattle.tree_aux.specs.BoundTrees.{single_or_naught};
ghost use Rattle.tree_aux.specs.LongPaths.{MayBeSumOf, rose_heavy, rose_heavy_up, AreOpenPaths};
ghost use Rattle.tree_aux.specs.LongPathLaws.{rose_heavy_up_laws, rose_heavy_nothing_laws};

use crate::options::{longer_of, one_or_naught};
use crate::sums::sum_of_two;
use op_catalog::Sum;
use op_laws::{ElemType, Lifted, RoseOp, TreeOp, Tup};

/// A node whose children's and siblings' values aren't known yet: the greatest of the first and
/// `children`, of the second and `siblings`, and of `own`.
#[derive(Clone, Copy, Debug, PartialEq, Eq)]
pub struct OpenPaths {
    pub children: i128,
    pub siblings: i128,
    pub own: i128,
}

/// The greatest sum along a path from the root of a rose tree down to some node. Elements have one
/// number of W bits, where W is 64 or 96, and the result one of the next width.
#[derive(Clone, Copy, Debug)]
pub struct RHeavy<const W: u32>(Sum<W>);

impl<const W: u32> RHeavy<W> {
    /// The operator.
    pub fn new() -> Self
        requires { (W ≡ 64) ⊎ (W ≡ 96) }
        ensures { ReducesRose (⟦<RHeavy<W> as TreeOp>⟧.takes result) (⟦<RHeavy<W> as TreeOp>⟧.finished result) (⟦<RHeavy<W> as RoseOp>⟧.nothing result) (⟦<RHeavy<W> as TreeOp>⟧.upward result) (λ t. single (rose_heavy t)) }
    {
        RHeavy(Sum::new())
    }
}

impl<const W: u32> TreeOp for RHeavy<W> {
    type V = Option<i128>;

    type G = OpenPaths;

    ghost takes = { λ _. IsSummed W };

    ghost gives = { λ _ _. sum_type W };

    ghost upward = { λ _. rose_heavy_up };

    ghost finished = { λ _. single_or_naught };

    ghost fits = { λ _. MayBeSumOf W };

    ghost fits_hole = { λ _. AreOpenPaths W };

    fn accepts(&self, ty: ElemType) -> bool {
        self.0.accepts(ty)
    }

    fn result(&self, ty: ElemType) -> ElemType {
        self.0.result(ty)
    }

    #[inline(always)]
    fn leaf(&self, _e: Tup) -> Option<i128> {
        None
    }

    #[inline(always)]
    fn phi(&self, b: Tup) -> OpenPaths {
        let own = self.0.lift(b);
        OpenPaths {
            children: own,
            siblings: 0,
            own,
        }
    }

    #[inline(always)]
    fn psi_n(
        &self,
        l: Option<i128>,
        nl: u32,
        g: OpenPaths,
        ng: u32,
        r: Option<i128>,
        nr: u32,
    ) -> Option<i128> {
        let beside = longer_of::<W>(g.siblings, ng, r, nr, g.own);
        Some(longer_of::<W>(g.children, ng, l, nl, beside))
    }

    #[inline(always)]
    fn psi_l(
        &self,
        l: OpenPaths,
        nl: u32,
        g: OpenPaths,
        ng: u32,
        r: Option<i128>,
        nr: u32,
    ) -> OpenPaths {
        let own = g.own.max(sum_of_two::<W>(g.children, ng, l.own, nl));
        OpenPaths {
            children: sum_of_two::<W>(g.children, ng, l.children, nl),
            siblings: sum_of_two::<W>(g.children, ng, l.siblings, nl),
            own: longer_of::<W>(g.siblings, ng, r, nr, own),
        }
    }

    #[inline(always)]
    fn psi_r(
        &self,
        l: Option<i128>,
        nl: u32,
        g: OpenPaths,
        ng: u32,
        r: OpenPaths,
        nr: u32,
    ) -> OpenPaths {
        let own = g.own.max(sum_of_two::<W>(g.siblings, ng, r.own, nr));
        OpenPaths {
            children: sum_of_two::<W>(g.siblings, ng, r.children, nr),
            siblings: sum_of_two::<W>(g.siblings, ng, r.siblings, nr),
            own: longer_of::<W>(g.children, ng, l, nl, own),
        }
    }

    #[inline(always)]
    fn finish(&self, v: Option<i128>, _n: u32) -> Tup {
        one_or_naught(v)
    }

    ghost upward_laws = { λ _. rose_heavy_up_laws W };
}

impl<const W: u32> RoseOp for RHeavy<W> {
    ghost nothing = { λ _. None };

    #[inline(always)]
    fn none(&self) -> Option<i128> {
        None
    }

    ghost nothing_laws = { λ _. rose_heavy_nothing_laws W };
}
