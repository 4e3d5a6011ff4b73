//! Sums of products along paths of rose trees.

ghost use Rattle.std.specs.Prelude.{◌≡◌, pos};
ghost use Rattle.op_laws.specs.RoseFolds.{ReducesRose};
ghost use Rattle.op_catalog.specs.Words.{IsWordType, IsWord};
ghost use Rattle.tree_aux.specs.SumTrees.{single};
ghost use Rattle.tree_aux.specs.WordTrees.{ring_up, rose_ring, IsOpenRing};
ghost use Rattle.tree_aux.specs.WordTreeLaws.{ring_up_laws, ring_nothing_laws};

use crate::words::{product, weighted_sum};
use op_catalog::Mul;
use op_laws::{ElemType, Lifted, RoseOp, TreeOp, Tup};

/// A node whose children's and siblings' values aren't known yet: the first times `children`, the
/// second times `siblings`, and `own`, modulo 2^64.
#[derive(Clone, Copy, Debug, PartialEq, Eq)]
pub struct OpenRing {
    pub children: i64,
    pub siblings: i64,
    pub own: i64,
}

/// The sum over all nodes of a rose tree of the product of the values from the root to it, modulo
/// 2^64. Elements have one number of w64.
#[derive(Clone, Copy, Debug)]
pub struct RRing(Mul);

impl RRing {
    /// The operator.
    pub fn new() -> Self
        ensures { ReducesRose (⟦<RRing as TreeOp>⟧.takes result) (⟦<RRing as TreeOp>⟧.finished result) (⟦<RRing as RoseOp>⟧.nothing result) (⟦<RRing as TreeOp>⟧.upward result) (λ t. single (rose_ring t)) }
    {
        RRing(Mul::new())
    }
}

impl TreeOp for RRing {
    type V = i64;

    type G = OpenRing;

    ghost takes = { λ _. IsWordType };

    ghost gives = { λ _ ty. ty };

    ghost upward = { λ _. ring_up };

    ghost finished = { λ _. single };

    ghost fits = { λ _. IsWord };

    ghost fits_hole = { λ _. IsOpenRing };

    fn accepts(&self, ty: ElemType) -> bool {
        self.0.accepts(ty)
    }

    fn result(&self, ty: ElemType) -> ElemType {
        self.0.result(ty)
    }

    #[inline(always)]
    fn leaf(&self, _e: Tup) -> i64 {
        0
    }

    #[inline(always)]
    fn phi(&self, b: Tup) -> OpenRing {
        let own = self.0.lift(b);
        OpenRing {
            children: own,
            siblings: 1,
            own,
        }
    }

    #[inline(always)]
    fn psi_n(&self, l: i64, _nl: u32, g: OpenRing, _ng: u32, r: i64, _nr: u32) -> i64 {
        weighted_sum(g.children, l, g.siblings, r, g.own)
    }

    #[inline(always)]
    fn psi_l(&self, l: OpenRing, _nl: u32, g: OpenRing, _ng: u32, r: i64, _nr: u32) -> OpenRing {
        OpenRing {
            children: product(g.children, l.children),
            siblings: product(g.children, l.siblings),
            own: weighted_sum(g.children, l.own, g.siblings, r, g.own),
        }
    }

    #[inline(always)]
    fn psi_r(&self, l: i64, _nl: u32, g: OpenRing, _ng: u32, r: OpenRing, _nr: u32) -> OpenRing {
        OpenRing {
            children: product(g.siblings, r.children),
            siblings: product(g.siblings, r.siblings),
            own: weighted_sum(g.children, l, g.siblings, r.own, g.own),
        }
    }

    #[inline(always)]
    fn finish(&self, v: i64, n: u32) -> Tup {
        self.0.finish(v, n)
    }

    ghost upward_laws = { λ _. ring_up_laws };
}

impl RoseOp for RRing {
    ghost nothing = { λ _. pos 0 };

    #[inline(always)]
    fn none(&self) -> i64 {
        0
    }

    ghost nothing_laws = { λ _. ring_nothing_laws };
}
