//! Lawful operators: how elements become values, and how values are combined.

ghost use Rattle.std.specs.Prelude.{◌≡◌, ℕ, ◌+◌, ◌≤◌, ◌↔◌, ℤ, IsTrue};
ghost use Rattle.std.specs.Prelude.{List as Seq};
ghost use Rattle.op_laws.specs.declared.width.Width.{Width as Kind};
ghost use Rattle.op_laws.specs.Laws.{IsElementOf, LiftLaws, CombineLaws, UnitLaws, CommuteLaws, AbideLaws};

use crate::MAX_ELEMENTS;
use crate::elem_type::ElemType;
use crate::tup::Tup;

/// How an element becomes a value, and a value a result. No method takes memory or refuses.
///
/// A value has a weight: it stands for at most so many elements. `fits op c n` says what a value of
/// weight n is, with the range of each of its numbers. Weights decide nothing: what a method
/// answers follows from the values alone.
pub trait Lifted {
    /// What elements become: one number or a few.
    type C: Copy;

    // The types of element that it takes.
    ghost takes: { Self → Seq Kind → Type 0 };

    // The type of its results.
    ghost gives: { Self → Seq Kind → Seq Kind };

    // The value of an element.
    ghost lifted: { Self → Seq ℤ → Self.C };

    // The result that a value stands for.
    ghost finished: { Self → Self.C → Seq ℤ };

    // The value may stand for so many elements.
    ghost fits: { Self → Self.C → ℕ → Type 0 };

    /// Whether it takes elements of this type.
    fn accepts(&self, ty: ElemType) -> bool
        ensures { IsTrue result ↔ takes self.now ty };

    /// The type of its results.
    fn result(&self, ty: ElemType) -> ElemType
        requires { takes self.now ty }
        ensures { result ≡ gives self.now ty };

    /// The value of an element. Its weight is 1.
    fn lift(&self, e: Tup) -> Self::C
        requires { IsElementOf (takes self.now) e }
        ensures { result ≡ lifted self.now e };

    /// The result that a value of weight `n` stands for: an element of the result's type.
    fn finish(&self, c: Self::C, n: u32) -> Tup
        requires { fits self.now c n }
        ensures { result ≡ finished self.now c };

    ghost lift_laws: { (op : Self) → LiftLaws (takes op) (gives op) (lifted op) (finished op) (fits op) };
}

/// An operator by which the values of neighbours become one, wherever a list is cut.
pub trait Semi: Lifted {
    // The value of elements that follow one another, from the values of two parts.
    ghost combined: { Self → Self.C → Self.C → Self.C };

    /// The value of what `a`, of weight `na`, and after it `b`, of weight `nb`, stand for. Its
    /// weight is `na + nb`.
    fn combine(&self, a: Self::C, na: u32, b: Self::C, nb: u32) -> Self::C
        requires few { na + nb ≤ MAX_ELEMENTS }
        requires first { Self.fits self.now a na }
        requires second { Self.fits self.now b nb }
        ensures { result ≡ combined self.now a b };

    ghost combine_laws: { (op : Self) → CombineLaws (combined op) (Self.fits op) };
}

/// An operator that has a value for no elements.
pub trait Monoid: Semi {
    // The value of no element.
    ghost nothing: { Self → Self.C };

    /// The value of no element. Its weight is 0.
    fn unit(&self) -> Self::C
        ensures { result ≡ nothing self.now };

    ghost unit_laws: { (op : Self) → UnitLaws (nothing op) (Self.combined op) (Self.fits op) };
}

/// An operator whose operands may be exchanged.
pub trait Commutative: Semi {
    ghost commute_laws: { (op : Self) → CommuteLaws (Self.combined op) (Self.fits op) };
}

/// An operator by which the values of neighbours in a matrix become one, downwards and across,
/// wherever it is cut:
///
/// ```text
///     a | b
///     --+--     (a across b) down (c across d) is (a down c) across (b down d)
///     c | d
/// ```
pub trait Abiding: Lifted {
    // The value of a part, from those of an upper and a lower one.
    ghost downwards: { Self → Self.C → Self.C → Self.C };

    // The value of a part, from those of a left and a right one.
    ghost sideways: { Self → Self.C → Self.C → Self.C };

    /// The value of what `a`, of weight `na`, and below it `b`, of weight `nb`, stand for. Its
    /// weight is `na + nb`.
    fn down(&self, a: Self::C, na: u32, b: Self::C, nb: u32) -> Self::C
        requires few { na + nb ≤ MAX_ELEMENTS }
        requires first { Self.fits self.now a na }
        requires second { Self.fits self.now b nb }
        ensures { result ≡ downwards self.now a b };

    /// The value of what `a`, of weight `na`, and to the right of it `b`, of weight `nb`, stand for.
    /// Its weight is `na + nb`.
    fn across(&self, a: Self::C, na: u32, b: Self::C, nb: u32) -> Self::C
        requires few { na + nb ≤ MAX_ELEMENTS }
        requires first { Self.fits self.now a na }
        requires second { Self.fits self.now b nb }
        ensures { result ≡ sideways self.now a b };

    ghost abide_laws: { (op : Self) → AbideLaws (downwards op) (sideways op) (Self.fits op) };
}
