//! Sums.

ghost use Rattle.std.specs.Prelude.{◌≡◌, ◌⊎◌, [], ◌∷◌, ◌+ℤ◌, pos};
ghost use Rattle.op_laws.specs.Folds.{Reduces};
ghost use Rattle.op_catalog.specs.Numbers.{number_of, numbers_of};
ghost use Rattle.op_catalog.specs.Sums.{IsSummed, sum_type, IsSumOf, sum_of};
ghost use Rattle.op_catalog.specs.SumLaws.{sum_lift_laws, sum_combine_laws, sum_unit_laws, sum_commute_laws};

use op_laws::{Commutative, ElemType, Lifted, Monoid, Semi, Tup, Width};

/// The sum of elements of one number of W bits, where W is 64 or 96. The result has one number of
/// the next width.
#[derive(Clone, Copy, Debug)]
pub struct Sum<const W: u32>(());

impl<const W: u32> Sum<W> {
    /// The operator.
    pub fn new() -> Self
        requires { (W ≡ 64) ⊎ (W ≡ 96) }
        ensures { Reduces (⟦<Sum<W> as Lifted>⟧.takes result) (⟦<Sum<W> as Lifted>⟧.finished result) (⟦<Sum<W> as Monoid>⟧.nothing result)
            (⟦<Sum<W> as Lifted>⟧.lifted result) (⟦<Sum<W> as Semi>⟧.combined result) (λ es. sum_of (numbers_of es) ∷ []) }
    {
        Sum(())
    }
}

impl<const W: u32> Lifted for Sum<W> {
    type C = i128;

    ghost takes = { λ _. IsSummed W };

    ghost gives = { λ _ _. sum_type W };

    ghost lifted = { λ _. number_of };

    ghost finished = { λ _ c. c ∷ [] };

    ghost fits = { λ _. IsSumOf W };

    fn accepts(&self, ty: ElemType) -> bool {
        if ty.len() != 1 {
            return false;
        }
        match ty.at(0) {
            Width::W64 => W == 64,
            Width::W96 => W == 96,
            Width::W128 => false,
        }
    }

    fn result(&self, _ty: ElemType) -> ElemType {
        if W == 64 {
            ElemType::one(Width::W96)
        } else {
            ElemType::one(Width::W128)
        }
    }

    #[inline(always)]
    fn lift(&self, e: Tup) -> i128 {
        e.at(0)
    }

    #[inline(always)]
    fn finish(&self, c: i128, _n: u32) -> Tup {
        Tup::one(c)
    }

    ghost lift_laws = { λ _. sum_lift_laws W };
}

impl<const W: u32> Semi for Sum<W> {
    ghost combined = { λ _ a b. a +ℤ b };

    #[inline(always)]
    fn combine(&self, a: i128, _na: u32, b: i128, _nb: u32) -> i128 {
        a + b
    }

    ghost combine_laws = { λ _. sum_combine_laws W };
}

impl<const W: u32> Monoid for Sum<W> {
    ghost nothing = { λ _. pos 0 };

    #[inline(always)]
    fn unit(&self) -> i128 {
        0
    }

    ghost unit_laws = { λ _. sum_unit_laws W };
}

impl<const W: u32> Commutative for Sum<W> {
    ghost commute_laws = { λ _. sum_commute_laws W };
}
