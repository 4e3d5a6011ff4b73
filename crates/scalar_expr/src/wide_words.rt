//! Arithmetic on numbers of 128 bits.

ghost use Rattle.std.specs.Prelude.{◌≡◌, ◌+ℤ◌, ◌-ℤ◌, ◌*ℤ◌, bit_and, bit_or, bit_xor};
ghost use Rattle.std.specs.Int.{w128, int_wrap};
ghost use Rattle.scalar_expr.specs.Steps.{made};
ghost use Rattle.scalar_expr.specs.Values.{residue, truth, bitwise, chosen};

use crate::narrow_words::{bits_in_both, bits_in_one, bits_in_some, difference, product, sum};
use crate::pair::Pair;
use crate::step::Calc;

const LOW: u128 = 18446744073709551615;

/// What a step makes of two numbers.
#[inline(always)]
pub(crate) fn wide_made(op: Calc, a: i128, b: i128) -> i128
    ensures { result ≡ made w128 op a b }
{
    match op {
        Calc::Two(Pair::Add) => wide_sum(a, b),
        Calc::Two(Pair::Sub) => wide_difference(a, b),
        Calc::Two(Pair::Mul) => wrapped_product(a, b),
        Calc::Two(Pair::Min) => a.min(b),
        Calc::Two(Pair::Max) => a.max(b),
        Calc::Two(Pair::Less) => truth(a < b),
        Calc::Two(Pair::Same) => truth(a == b),
        Calc::Two(Pair::And) => wide_and(a, b),
        Calc::Two(Pair::Or) => wide_or(a, b),
        Calc::Two(Pair::Xor) => wide_xor(a, b),
        Calc::WrapAdd => wrapped_sum(a, b),
        Calc::WrapSub => wrapped_difference(a, b),
        Calc::Wrap => residue(a) as i128,
        Calc::Copy => a,
    }
}

/// The first number where the condition isn't 0, else the second.
#[inline(always)]
pub(crate) fn wide_choice(c: i128, a: i128, b: i128) -> i128
    ensures { result ≡ chosen c a b }
{
    if c == 0 { b } else { a }
}

// The number of 64 bits that differs by a multiple of 2^64.
#[inline(always)]
fn residue(v: i128) -> i64
    ensures { result ≡ residue v }
{
    ((v.cast_unsigned() & LOW) as u64).cast_signed()
}

#[inline(always)]
fn truth(test: bool) -> i128
    ensures { result ≡ truth test }
{
    if test { 1 } else { 0 }
}

// The sum, which a step makes only where it is a number of 128 bits.
#[inline(always)]
fn wide_sum(a: i128, b: i128) -> i128
    ensures { result ≡ int_wrap w128 (a +ℤ b) }
{
    a.wrapping_add(b)
}

// The difference, in the same way.
#[inline(always)]
fn wide_difference(a: i128, b: i128) -> i128
    ensures { result ≡ int_wrap w128 (a -ℤ b) }
{
    a.wrapping_sub(b)
}

#[inline(always)]
fn wrapped_product(a: i128, b: i128) -> i128
    ensures { result ≡ residue (a *ℤ b) }
{
    product(residue(a), residue(b)) as i128
}

#[inline(always)]
fn wrapped_sum(a: i128, b: i128) -> i128
    ensures { result ≡ residue (a +ℤ b) }
{
    sum(residue(a), residue(b)) as i128
}

#[inline(always)]
fn wrapped_difference(a: i128, b: i128) -> i128
    ensures { result ≡ residue (a -ℤ b) }
{
    difference(residue(a), residue(b)) as i128
}

#[inline(always)]
fn wide_and(a: i128, b: i128) -> i128
    ensures { result ≡ bitwise bit_and a b }
{
    bits_in_both(residue(a), residue(b)) as i128
}

#[inline(always)]
fn wide_or(a: i128, b: i128) -> i128
    ensures { result ≡ bitwise bit_or a b }
{
    bits_in_some(residue(a), residue(b)) as i128
}

#[inline(always)]
fn wide_xor(a: i128, b: i128) -> i128
    ensures { result ≡ bitwise bit_xor a b }
{
    bits_in_one(residue(a), residue(b)) as i128
}
