//! Bits that are set in an odd number of numbers.

ghost use Rattle.std.specs.Prelude.{◌≡◌, [], ◌∷◌, pos};
ghost use Rattle.std.specs.Int.{w64, int_bit_xor};
ghost use Rattle.op_laws.specs.Folds.{Reduces};
ghost use Rattle.op_catalog.specs.Numbers.{number_of, numbers_of};
ghost use Rattle.op_catalog.specs.Words.{IsWordType, IsWord};
ghost use Rattle.op_catalog.specs.Bits.{HasBits, number_with, set_in_odd};
ghost use Rattle.op_catalog.specs.WordLaws.{word_lift_laws};
ghost use Rattle.op_catalog.specs.BitLaws.{bitwise_combine_laws, bitwise_unit_laws, bitwise_commute_laws, xor_bits};

use crate::words::{is_word_type, word_of};
use op_laws::{Commutative, ElemType, Lifted, Monoid, Semi, Tup};

/// Of elements of one number of w64 the number whose bits are those that are set in an odd number
/// of them, in two's complement. Of no element it is 0.
#[derive(Clone, Copy, Debug)]
pub struct Xor(());

impl Xor {
    /// The operator.
    pub fn new() -> Self
        ensures reduces { Reduces (⟦<Xor as Lifted>⟧.takes result) (⟦<Xor as Lifted>⟧.finished result) (⟦<Xor as Monoid>⟧.nothing result)
            (⟦<Xor as Lifted>⟧.lifted result) (⟦<Xor as Semi>⟧.combined result) (λ es. number_with (set_in_odd (numbers_of es)) ∷ []) }
        // what `number_with` is
        ensures bits { (told : _) → HasBits told (number_with told) }
    {
        Xor(())
    }
}

impl Lifted for Xor {
    type C = i64;

    ghost takes = { λ _. IsWordType };

    ghost gives = { λ _ ty. ty };

    ghost lifted = { λ _. number_of };

    ghost finished = { λ _ c. c ∷ [] };

    ghost fits = { λ _. IsWord };

    fn accepts(&self, ty: ElemType) -> bool {
        is_word_type(ty)
    }

    fn result(&self, ty: ElemType) -> ElemType {
        ty
    }

    #[inline(always)]
    fn lift(&self, e: Tup) -> i64 {
        word_of(e)
    }

    #[inline(always)]
    fn finish(&self, c: i64, _n: u32) -> Tup {
        Tup::one(c as i128)
    }

    ghost lift_laws = { λ _. word_lift_laws };
}

impl Semi for Xor {
    ghost combined = { λ _. int_bit_xor w64 };

    #[inline(always)]
    fn combine(&self, a: i64, _na: u32, b: i64, _nb: u32) -> i64 {
        a ^ b
    }

    ghost combine_laws = { λ _. bitwise_combine_laws xor_bits };
}

impl Monoid for Xor {
    ghost nothing = { λ _. pos 0 };

    #[inline(always)]
    fn unit(&self) -> i64 {
        0
    }

    ghost unit_laws = { λ _. bitwise_unit_laws xor_bits };
}

impl Commutative for Xor {
    ghost commute_laws = { λ _. bitwise_commute_laws xor_bits };
}
