//! Greatest sums of subtrees.

ghost use Rattle.std.specs.Prelude.{◌≡◌, ◌⊎◌, ◌+◌, ◌≤◌};
ghost use Rattle.op_laws.specs.TreeFolds.{ReducesTree};
ghost use Rattle.op_catalog.specs.Sums.{IsSummed, sum_type};
ghost use Rattle.tree_aux.specs.SumTrees.{single};
ghost use Rattle.tree_aux.specs.LongPaths.{IsGreatestWith, tree_best, IsSubtreeSum, best_hole, best_of, best_up, AreSubtreeSums, AreOpenSubtrees};
ghost use Rattle.tree_aux.specs.LongPathLaws.{best_up_laws};

use crate::options::or_greater_of;
use crate::sums::sum_of_three;
use op_catalog::Sum;
use op_laws::{ElemType, Lifted, MAX_ELEMENTS, TreeOp, Tup};

/// The sum of a whole tree, and the greatest sum of it or of a subtree.
#[derive(Clone, Copy, Debug, PartialEq, Eq)]
pub struct SubtreeSums {
    pub whole: i128,
    pub best: i128,
}

/// A node whose children's values aren't known yet: `whole` and the children's sums are the sum of
/// the whole; `through` and the children's sums, or `best` where it is there, may be the greatest
/// sum.
#[derive(Clone, Copy, Debug, PartialEq, Eq)]
pub struct OpenSubtrees {
    pub whole: i128,
    pub through: i128,
    pub best: Option<i128>,
}

/// The greatest sum of a binary tree or of a subtree of it. Elements have one number of W bits,
/// where W is 64 or 96, and the result one of the next width.
#[derive(Clone, Copy, Debug)]
pub struct BestSub<const W: u32>(Sum<W>);

impl<const W: u32> BestSub<W> {
    /// The operator.
    pub fn new() -> Self
        requires { (W ≡ 64) ⊎ (W ≡ 96) }
        ensures reduces { ReducesTree (⟦<BestSub<W> as TreeOp>⟧.takes result) (⟦<BestSub<W> as TreeOp>⟧.finished result) (⟦<BestSub<W> as TreeOp>⟧.upward result) (λ t. single (tree_best t)) }
        ensures greatest { (t : _) → IsGreatestWith (IsSubtreeSum t) (tree_best t) }
    {
        BestSub(Sum::new())
    }
}

// The inner node h below the outer one g, whose other child has the value r.
#[inline(always)]
fn below<const W: u32>(
    h: OpenSubtrees,
    _nh: u32,
    g: OpenSubtrees,
    _ng: u32,
    r: SubtreeSums,
    _nr: u32,
) -> OpenSubtrees
    requires few { _nh + _ng + _nr ≤ MAX_ELEMENTS }
    requires inner { AreOpenSubtrees W h _nh }
    requires outer { AreOpenSubtrees W g _ng }
    requires other { AreSubtreeSums W r _nr }
    ensures { result ≡ best_hole h g r }
{
    let through = sum_of_three::<W>(h.whole, _nh, g.through, _ng, r.whole, _nr);
    OpenSubtrees {
        whole: sum_of_three::<W>(h.whole, _nh, g.whole, _ng, r.whole, _nr),
        through: h.through.max(through),
        best: Some(or_greater_of(or_greater_of(r.best, h.best), g.best)),
    }
}

impl<const W: u32> TreeOp for BestSub<W> {
    type V = SubtreeSums;

    type G = OpenSubtrees;

    ghost takes = { λ _. IsSummed W };

    ghost gives = { λ _ _. sum_type W };

    ghost upward = { λ _. best_up };

    ghost finished = { λ _. best_of };

    ghost fits = { λ _. AreSubtreeSums W };

    ghost fits_hole = { λ _. AreOpenSubtrees W };

    fn accepts(&self, ty: ElemType) -> bool {
        self.0.accepts(ty)
    }

    fn result(&self, ty: ElemType) -> ElemType {
        self.0.result(ty)
    }

    #[inline(always)]
    fn leaf(&self, e: Tup) -> SubtreeSums {
        let whole = self.0.lift(e);
        SubtreeSums { whole, best: whole }
    }

    #[inline(always)]
    fn phi(&self, b: Tup) -> OpenSubtrees {
        let whole = self.0.lift(b);
        OpenSubtrees {
            whole,
            through: whole,
            best: None,
        }
    }

    #[inline(always)]
    fn psi_n(
        &self,
        l: SubtreeSums,
        nl: u32,
        g: OpenSubtrees,
        ng: u32,
        r: SubtreeSums,
        nr: u32,
    ) -> SubtreeSums {
        let through = sum_of_three::<W>(l.whole, nl, g.through, ng, r.whole, nr);
        SubtreeSums {
            whole: sum_of_three::<W>(l.whole, nl, g.whole, ng, r.whole, nr),
            best: or_greater_of(l.best.max(r.best).max(through), g.best),
        }
    }

    #[inline(always)]
    fn psi_l(
        &self,
        l: OpenSubtrees,
        nl: u32,
        g: OpenSubtrees,
        ng: u32,
        r: SubtreeSums,
        nr: u32,
    ) -> OpenSubtrees {
        below::<W>(l, nl, g, ng, r, nr)
    }

    #[inline(always)]
    fn psi_r(
        &self,
        l: SubtreeSums,
        nl: u32,
        g: OpenSubtrees,
        ng: u32,
        r: OpenSubtrees,
        nr: u32,
    ) -> OpenSubtrees {
        below::<W>(r, nr, g, ng, l, nl)
    }

    #[inline(always)]
    fn finish(&self, v: SubtreeSums, _n: u32) -> Tup {
        Tup::one(v.best)
    }

    ghost upward_laws = { λ _. best_up_laws W };
}
