//! Least numbers.

ghost use Rattle.std.specs.Prelude.{◌≡◌, ◌⊎◌, [], ◌∷◌};
ghost use Rattle.std.specs.Int.{int_min};
ghost use Rattle.op_laws.specs.Folds.{Reduces};
ghost use Rattle.op_catalog.specs.Numbers.{number_of, numbers_of, width_of};
ghost use Rattle.op_catalog.specs.Bounds.{top, least_of, IsLeast, IsBounded, IsInWidth};
ghost use Rattle.op_catalog.specs.BoundLaws.{bound_lift_laws, min_combine_laws, min_unit_laws, min_commute_laws};

use op_laws::{Commutative, ElemType, Lifted, Monoid, Semi, Tup, Width};

const MAX_96: i128 = 39614081257132168796771975167;

/// The least of elements of one number of W bits, where W is 64, 96 or 128. Of no element it is
/// the greatest number of the width.
#[derive(Clone, Copy, Debug)]
pub struct Min<const W: u32>(());

impl<const W: u32> Min<W> {
    /// The operator.
    pub fn new() -> Self
        requires { (W ≡ 64) ⊎ (W ≡ 96) ⊎ (W ≡ 128) }
        ensures reduces { Reduces (⟦<Min<W> as Lifted>⟧.takes result) (⟦<Min<W> as Lifted>⟧.finished result) (⟦<Min<W> as Monoid>⟧.nothing result)
            (⟦<Min<W> as Lifted>⟧.lifted result) (⟦<Min<W> as Semi>⟧.combined result) (λ es. least_of (top (width_of W)) (numbers_of es) ∷ []) }
        ensures least { (xs : _) → IsLeast (top (width_of W)) xs (least_of (top (width_of W)) xs) }
    {
        Min(())
    }
}

impl<const W: u32> Lifted for Min<W> {
    type C = i128;

    ghost takes = { λ _. IsBounded W };

    ghost gives = { λ _ ty. ty };

    ghost lifted = { λ _. number_of };

    ghost finished = { λ _ c. c ∷ [] };

    ghost fits = { λ _. IsInWidth W };

    fn accepts(&self, ty: ElemType) -> bool {
        if ty.len() != 1 {
            return false;
        }
        match ty.at(0) {
            Width::W64 => W == 64,
            Width::W96 => W == 96,
            Width::W128 => W == 128,
        }
    }

    fn result(&self, ty: ElemType) -> ElemType {
        ty
    }

    #[inline(always)]
    fn lift(&self, e: Tup) -> i128 {
        e.at(0)
    }

    #[inline(always)]
    fn finish(&self, c: i128, _n: u32) -> Tup {
        Tup::one(c)
    }

    ghost lift_laws = { λ _. bound_lift_laws W };
}

impl<const W: u32> Semi for Min<W> {
    ghost combined = { λ _. int_min };

    #[inline(always)]
    fn combine(&self, a: i128, _na: u32, b: i128, _nb: u32) -> i128 {
        a.min(b)
    }

    ghost combine_laws = { λ _. min_combine_laws W };
}

impl<const W: u32> Monoid for Min<W> {
    ghost nothing = { λ _. top (width_of W) };

    #[inline(always)]
    fn unit(&self) -> i128 {
        if W == 64 {
            i64::MAX as i128
        } else if W == 96 {
            MAX_96
        } else {
            i128::MAX
        }
    }

    ghost unit_laws = { λ _. min_unit_laws W };
}

impl<const W: u32> Commutative for Min<W> {
    ghost commute_laws = { λ _. min_commute_laws W };
}
