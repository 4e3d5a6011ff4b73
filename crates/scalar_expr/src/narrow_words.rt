//! Arithmetic on numbers of 64 bits.

ghost use Rattle.std.specs.Prelude.{◌≡◌, ◌+ℤ◌, ◌-ℤ◌, ◌*ℤ◌, bit_and, bit_or, bit_xor};
ghost use Rattle.std.specs.Int.{w64};
ghost use Rattle.scalar_expr.specs.Steps.{made};
ghost use Rattle.scalar_expr.specs.Values.{residue, truth, bitwise, chosen};

use crate::pair::Pair;
use crate::step::Calc;

/// What a step makes of two numbers. Sums and differences are those modulo 2^64.
#[inline(always)]
pub(crate) fn narrow_made(op: Calc, a: i64, b: i64) -> i64
    ensures { result ≡ made w64 op a b }
{
    match op {
        Calc::Two(Pair::Add) | Calc::WrapAdd => sum(a, b),
        Calc::Two(Pair::Sub) | Calc::WrapSub => difference(a, b),
        Calc::Two(Pair::Mul) => product(a, b),
        Calc::Two(Pair::Min) => a.min(b),
        Calc::Two(Pair::Max) => a.max(b),
        Calc::Two(Pair::Less) => truth(a < b),
        Calc::Two(Pair::Same) => truth(a == b),
        Calc::Two(Pair::And) => bits_in_both(a, b),
        Calc::Two(Pair::Or) => bits_in_some(a, b),
        Calc::Two(Pair::Xor) => bits_in_one(a, b),
        Calc::Wrap => itself(a),
        Calc::Copy => a,
    }
}

/// The first number where the condition isn't 0, else the second.
#[inline(always)]
pub(crate) fn narrow_choice(c: i64, a: i64, b: i64) -> i64
    ensures { result ≡ chosen c a b }
{
    if c == 0 { b } else { a }
}

/// The sum modulo 2^64.
#[inline(always)]
pub(crate) fn sum(a: i64, b: i64) -> i64
    ensures { result ≡ residue (a +ℤ b) }
{
    a.wrapping_add(b)
}

/// The difference modulo 2^64.
#[inline(always)]
pub(crate) fn difference(a: i64, b: i64) -> i64
    ensures { result ≡ residue (a -ℤ b) }
{
    a.wrapping_sub(b)
}

/// The product modulo 2^64.
#[inline(always)]
pub(crate) fn product(a: i64, b: i64) -> i64
    ensures { result ≡ residue (a *ℤ b) }
{
    a.wrapping_mul(b)
}

/// The bits that are set in both.
#[inline(always)]
pub(crate) fn bits_in_both(a: i64, b: i64) -> i64
    ensures { result ≡ bitwise bit_and a b }
{
    a & b
}

/// The bits that are set in one or both.
#[inline(always)]
pub(crate) fn bits_in_some(a: i64, b: i64) -> i64
    ensures { result ≡ bitwise bit_or a b }
{
    a | b
}

/// The bits that are set in one alone.
#[inline(always)]
pub(crate) fn bits_in_one(a: i64, b: i64) -> i64
    ensures { result ≡ bitwise bit_xor a b }
{
    a ^ b
}

#[inline(always)]
fn itself(a: i64) -> i64
    ensures { result ≡ residue a }
{
    a
}

#[inline(always)]
fn truth(test: bool) -> i64
    ensures { result ≡ truth test }
{
    if test { 1 } else { 0 }
}
