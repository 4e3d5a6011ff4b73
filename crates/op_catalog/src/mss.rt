//! Greatest sums of segments.

ghost use Rattle.std.specs.Prelude.{◌≡◌, ◌⊎◌, [], ◌∷◌, ◌+ℤ◌, FitsSigned};
ghost use Rattle.std.specs.Int.{int_max, w128};
ghost use Rattle.op_laws.specs.Folds.{Reduces};
ghost use Rattle.op_catalog.specs.Numbers.{numbers_of};
ghost use Rattle.op_catalog.specs.Sums.{IsSummed, sum_type};
ghost use Rattle.op_catalog.specs.Segments.{best_segment, IsGreatestSegment, of_one, of_none, joined, best_of, IsSegmentsOf};
ghost use Rattle.op_catalog.specs.SegmentLaws.{segment_lift_laws, segment_combine_laws, segment_unit_laws};

use op_laws::{ElemType, Lifted, Monoid, Semi, Tup, Width};

/// Sums of elements that follow one another: of all, and the greatest of a prefix, of a suffix and
/// of a segment. Each may be empty, and then it is 0.
#[derive(Clone, Copy, Debug, PartialEq, Eq)]
pub struct Segments {
    pub total: i128,
    pub prefix: i128,
    pub suffix: i128,
    pub best: i128,
}

/// The greatest sum of a segment of elements of one number of W bits, where W is 64 or 96. The
/// empty segment counts as 0. The result has one number of the next width.
#[derive(Clone, Copy, Debug)]
pub struct Mss<const W: u32>(());

impl<const W: u32> Mss<W> {
    /// The operator.
    pub fn new() -> Self
        requires { (W ≡ 64) ⊎ (W ≡ 96) }
        ensures reduces { Reduces (⟦<Mss<W> as Lifted>⟧.takes result) (⟦<Mss<W> as Lifted>⟧.finished result) (⟦<Mss<W> as Monoid>⟧.nothing result)
            (⟦<Mss<W> as Lifted>⟧.lifted result) (⟦<Mss<W> as Semi>⟧.combined result) (λ es. best_segment (numbers_of es) ∷ []) }
        ensures greatest { (xs : _) → IsGreatestSegment xs (best_segment xs) }
    {
        Mss(())
    }
}

impl<const W: u32> Lifted for Mss<W> {
    type C = Segments;

    ghost takes = { λ _. IsSummed W };

    ghost gives = { λ _ _. sum_type W };

    ghost lifted = { λ _. of_one };

    ghost finished = { λ _. best_of };

    ghost fits = { λ _. IsSegmentsOf W };

    fn accepts(&self, ty: ElemType) -> bool {
        if ty.len() != 1 {
            return false;
        }
        match ty.at(0) {
            Width::W64 => W == 64,
            Width::W96 => W == 96,
            Width::W128 => false,
        }
    }

    fn result(&self, _ty: ElemType) -> ElemType {
        if W == 64 {
            ElemType::one(Width::W96)
        } else {
            ElemType::one(Width::W128)
        }
    }

    #[inline(always)]
    fn lift(&self, e: Tup) -> Segments {
        let total = e.at(0);
        let best = total.max(0);
        Segments {
            total,
            prefix: best,
            suffix: best,
            best,
        }
    }

    #[inline(always)]
    fn finish(&self, c: Segments, _n: u32) -> Tup {
        Tup::one(c.best)
    }

    ghost lift_laws = { λ _. segment_lift_laws W };
}

impl<const W: u32> Semi for Mss<W> {
    ghost combined = { λ _. joined };

    #[inline(always)]
    fn combine(&self, a: Segments, _na: u32, b: Segments, _nb: u32) -> Segments {
        Segments {
            total: a.total + b.total,
            prefix: larger(a.prefix, a.total, b.prefix),
            suffix: larger(b.suffix, a.suffix, b.total),
            best: best_joined(a.best, b.best, a.suffix, b.prefix),
        }
    }

    ghost combine_laws = { λ _. segment_combine_laws W };
}

impl<const W: u32> Monoid for Mss<W> {
    ghost nothing = { λ _. of_none };

    #[inline(always)]
    fn unit(&self) -> Segments {
        Segments {
            total: 0,
            prefix: 0,
            suffix: 0,
            best: 0,
        }
    }

    ghost unit_laws = { λ _. segment_unit_laws W };
}

// The larger of a number and a sum.
#[inline(always)]
fn larger(number: i128, a: i128, b: i128) -> i128
    requires { FitsSigned w128 (a +ℤ b) }
    ensures { result ≡ int_max number (a +ℤ b) }
{
    number.max(a + b)
}

// The greatest sum of a segment of two parts: it lies in the first, in the second, or spans both.
#[inline(always)]
fn best_joined(first: i128, second: i128, suffix: i128, prefix: i128) -> i128
    requires { FitsSigned w128 (suffix +ℤ prefix) }
    ensures { result ≡ int_max (int_max first second) (suffix +ℤ prefix) }
{
    first.max(second).max(suffix + prefix)
}
