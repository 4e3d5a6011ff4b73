//! Greatest sums along paths from the root of a tree to a leaf.

ghost use Rattle.std.specs.Prelude.{◌≡◌, ◌⊎◌, ◌+◌, ◌≤◌};
ghost use Rattle.op_laws.specs.TreeFolds.{ReducesTree};
ghost use Rattle.op_catalog.specs.Sums.{IsSummed, sum_type, IsSumOf};
ghost use Rattle.tree_aux.specs.SumTrees.{single};
ghost use Rattle.tree_aux.specs.LongPaths.{IsGreatestWith, tree_heavy, IsPathSum, heavy_hole, heavy_up, IsOpenHeavy};
ghost use Rattle.tree_aux.specs.LongPathLaws.{heavy_up_laws};

use crate::options::or_greater_of;
use crate::sums::{greater_sum, sum_of_two};
use op_catalog::Sum;
use op_laws::{ElemType, Lifted, MAX_ELEMENTS, TreeOp, Tup};

/// A node whose children's values aren't known yet: the greater of the two and `own`, or `other`
/// where that is there and greater.
#[derive(Clone, Copy, Debug, PartialEq, Eq)]
pub struct OpenHeavy {
    pub own: i128,
    pub other: Option<i128>,
}

/// The greatest sum along a path from the root of a binary tree to a leaf. Elements have one number
/// of W bits, where W is 64 or 96, and the result one of the next width.
#[derive(Clone, Copy, Debug)]
pub struct Heavy<const W: u32>(Sum<W>);

impl<const W: u32> Heavy<W> {
    /// The operator.
    pub fn new() -> Self
        requires { (W ≡ 64) ⊎ (W ≡ 96) }
        ensures reduces { ReducesTree (⟦<Heavy<W> as TreeOp>⟧.takes result) (⟦<Heavy<W> as TreeOp>⟧.finished result) (⟦<Heavy<W> as TreeOp>⟧.upward result) (λ t. single (tree_heavy t)) }
        ensures greatest { (t : _) → IsGreatestWith (IsPathSum t) (tree_heavy t) }
    {
        Heavy(Sum::new())
    }
}

// The inner node h below the outer one g, whose other child has the value r.
#[inline(always)]
fn below<const W: u32>(
    h: OpenHeavy,
    _nh: u32,
    g: OpenHeavy,
    _ng: u32,
    r: i128,
    _nr: u32,
) -> OpenHeavy
    requires few { _nh + _ng + _nr ≤ MAX_ELEMENTS }
    requires inner { IsOpenHeavy W h _nh }
    requires outer { IsOpenHeavy W g _ng }
    requires other { IsSumOf W r _nr }
    ensures { result ≡ heavy_hole h g r }
{
    let longest = or_greater_of(r, h.other);
    let path = sum_of_two::<W>(longest, _nr + _nh, g.own, _ng);
    OpenHeavy {
        own: sum_of_two::<W>(h.own, _nh, g.own, _ng),
        other: Some(or_greater_of(path, g.other)),
    }
}

impl<const W: u32> TreeOp for Heavy<W> {
    type V = i128;

    type G = OpenHeavy;

    ghost takes = { λ _. IsSummed W };

    ghost gives = { λ _ _. sum_type W };

    ghost upward = { λ _. heavy_up };

    ghost finished = { λ _. single };

    ghost fits = { λ _. IsSumOf W };

    ghost fits_hole = { λ _. IsOpenHeavy W };

    fn accepts(&self, ty: ElemType) -> bool {
        self.0.accepts(ty)
    }

    fn result(&self, ty: ElemType) -> ElemType {
        self.0.result(ty)
    }

    #[inline(always)]
    fn leaf(&self, e: Tup) -> i128 {
        self.0.lift(e)
    }

    #[inline(always)]
    fn phi(&self, b: Tup) -> OpenHeavy {
        OpenHeavy {
            own: self.0.lift(b),
            other: None,
        }
    }

    #[inline(always)]
    fn psi_n(&self, l: i128, nl: u32, g: OpenHeavy, ng: u32, r: i128, nr: u32) -> i128 {
        or_greater_of(greater_sum::<W>(l, nl, r, nr, g.own, ng), g.other)
    }

    #[inline(always)]
    fn psi_l(&self, l: OpenHeavy, nl: u32, g: OpenHeavy, ng: u32, r: i128, nr: u32) -> OpenHeavy {
        below::<W>(l, nl, g, ng, r, nr)
    }

    #[inline(always)]
    fn psi_r(&self, l: i128, nl: u32, g: OpenHeavy, ng: u32, r: OpenHeavy, nr: u32) -> OpenHeavy {
        below::<W>(r, nr, g, ng, l, nl)
    }

    #[inline(always)]
    fn finish(&self, v: i128, n: u32) -> Tup {
        self.0.finish(v, n)
    }

    ghost upward_laws = { λ _. heavy_up_laws W };
}
