//! Products.

ghost use Rattle.std.specs.Prelude.{◌≡◌, [], ◌∷◌, pos};
ghost use Rattle.std.specs.Int.{int_wrap, w64};
ghost use Rattle.op_laws.specs.Folds.{Reduces};
ghost use Rattle.op_catalog.specs.Numbers.{number_of, numbers_of};
ghost use Rattle.op_catalog.specs.Words.{IsWordType, IsWord};
ghost use Rattle.op_catalog.specs.Products.{product_of, wrapped_product};
ghost use Rattle.op_catalog.specs.WordLaws.{word_lift_laws, product_combine_laws, product_unit_laws, product_commute_laws};

use crate::words::{is_word_type, word_of};
use op_laws::{Commutative, ElemType, Lifted, Monoid, Semi, Tup};

/// The product of elements of one number of w64, modulo 2^64: the one number of w64 that differs
/// from it by a multiple of 2^64.
#[derive(Clone, Copy, Debug)]
pub struct Mul(());

impl Mul {
    /// The operator.
    pub fn new() -> Self
        ensures { Reduces (⟦<Mul as Lifted>⟧.takes result) (⟦<Mul as Lifted>⟧.finished result) (⟦<Mul as Monoid>⟧.nothing result)
            (⟦<Mul as Lifted>⟧.lifted result) (⟦<Mul as Semi>⟧.combined result) (λ es. int_wrap w64 (product_of (numbers_of es)) ∷ []) }
    {
        Mul(())
    }
}

impl Lifted for Mul {
    type C = i64;

    ghost takes = { λ _. IsWordType };

    ghost gives = { λ _ ty. ty };

    ghost lifted = { λ _. number_of };

    ghost finished = { λ _ c. c ∷ [] };

    ghost fits = { λ _. IsWord };

    fn accepts(&self, ty: ElemType) -> bool {
        is_word_type(ty)
    }

    fn result(&self, ty: ElemType) -> ElemType {
        ty
    }

    #[inline(always)]
    fn lift(&self, e: Tup) -> i64 {
        word_of(e)
    }

    #[inline(always)]
    fn finish(&self, c: i64, _n: u32) -> Tup {
        Tup::one(c as i128)
    }

    ghost lift_laws = { λ _. word_lift_laws };
}

impl Semi for Mul {
    ghost combined = { λ _. wrapped_product };

    #[inline(always)]
    fn combine(&self, a: i64, _na: u32, b: i64, _nb: u32) -> i64 {
        a.wrapping_mul(b)
    }

    ghost combine_laws = { λ _. product_combine_laws };
}

impl Monoid for Mul {
    ghost nothing = { λ _. pos 1 };

    #[inline(always)]
    fn unit(&self) -> i64 {
        1
    }

    ghost unit_laws = { λ _. product_unit_laws };
}

impl Commutative for Mul {
    ghost commute_laws = { λ _. product_commute_laws };
}
