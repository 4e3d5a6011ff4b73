//! Greatest numbers.

ghost use Rattle.std.specs.Prelude.{◌≡◌, ◌⊎◌, [], ◌∷◌};
ghost use Rattle.std.specs.Int.{int_max};
ghost use Rattle.op_laws.specs.Folds.{Reduces};
ghost use Rattle.op_catalog.specs.Numbers.{number_of, numbers_of, width_of};
ghost use Rattle.op_catalog.specs.Bounds.{bottom, greatest_of, IsGreatest, IsBounded, IsInWidth};
ghost use Rattle.op_catalog.specs.BoundLaws.{bound_lift_laws, max_combine_laws, max_unit_laws, max_commute_laws};

use op_laws::{Commutative, ElemType, Lifted, Monoid, Semi, Tup, Width};

const MIN_96: i128 = -39614081257132168796771975168;

/// The greatest of elements of one number of W bits, where W is 64, 96 or 128. Of no element it is
/// the least number of the width.
#[derive(Clone, Copy, Debug)]
pub struct Max<const W: u32>(());

impl<const W: u32> Max<W> {
    /// The operator.
    pub fn new() -> Self
        requires { (W ≡ 64) ⊎ (W ≡ 96) ⊎ (W ≡ 128) }
        ensures reduces { Reduces (⟦<Max<W> as Lifted>⟧.takes result) (⟦<Max<W> as Lifted>⟧.finished result) (⟦<Max<W> as Monoid>⟧.nothing result)
            (⟦<Max<W> as Lifted>⟧.lifted result) (⟦<Max<W> as Semi>⟧.combined result) (λ es. greatest_of (bottom (width_of W)) (numbers_of es) ∷ []) }
        ensures greatest { (xs : _) → IsGreatest (bottom (width_of W)) xs (greatest_of (bottom (width_of W)) xs) }
    {
        Max(())
    }
}

impl<const W: u32> Lifted for Max<W> {
    type C = i128;

    ghost takes = { λ _. IsBounded W };

    ghost gives = { λ _ ty. ty };

    ghost lifted = { λ _. number_of };

    ghost finished = { λ _ c. c ∷ [] };

    ghost fits = { λ _. IsInWidth W };

    fn accepts(&self, ty: ElemType) -> bool {
        if ty.len() != 1 {
            return false;
        }
        match ty.at(0) {
            Width::W64 => W == 64,
            Width::W96 => W == 96,
            Width::W128 => W == 128,
        }
    }

    fn result(&self, ty: ElemType) -> ElemType {
        ty
    }

    #[inline(always)]
    fn lift(&self, e: Tup) -> i128 {
        e.at(0)
    }

    #[inline(always)]
    fn finish(&self, c: i128, _n: u32) -> Tup {
        Tup::one(c)
    }

    ghost lift_laws = { λ _. bound_lift_laws W };
}

impl<const W: u32> Semi for Max<W> {
    ghost combined = { λ _. int_max };

    #[inline(always)]
    fn combine(&self, a: i128, _na: u32, b: i128, _nb: u32) -> i128 {
        a.max(b)
    }

    ghost combine_laws = { λ _. max_combine_laws W };
}

impl<const W: u32> Monoid for Max<W> {
    ghost nothing = { λ _. bottom (width_of W) };

    #[inline(always)]
    fn unit(&self) -> i128 {
        if W == 64 {
            i64::MIN as i128
        } else if W == 96 {
            MIN_96
        } else {
            i128::MIN
        }
    }

    ghost unit_laws = { λ _. max_unit_laws W };
}

impl<const W: u32> Commutative for Max<W> {
    ghost commute_laws = { λ _. max_commute_laws W };
}
