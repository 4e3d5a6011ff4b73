//! Sums of two and of three numbers that the weights keep small.

ghost use Rattle.std.specs.Prelude.{◌≡◌, ◌+◌, ◌≤◌, ◌+ℤ◌};
ghost use Rattle.std.specs.Int.{int_max};
ghost use Rattle.op_catalog.specs.Sums.{IsSumOf};

use op_laws::MAX_ELEMENTS;

#[inline(always)]
pub(crate) fn sum_of_two<const W: u32>(a: i128, _na: u32, b: i128, _nb: u32) -> i128
    requires few { _na + _nb ≤ MAX_ELEMENTS }
    requires first { IsSumOf W a _na }
    requires second { IsSumOf W b _nb }
    ensures value { result ≡ a +ℤ b }
    ensures fits { IsSumOf W result (_na + _nb) }
{
    a + b
}

#[inline(always)]
pub(crate) fn sum_of_three<const W: u32>(
    a: i128,
    _na: u32,
    b: i128,
    _nb: u32,
    c: i128,
    _nc: u32,
) -> i128
    requires few { _na + _nb + _nc ≤ MAX_ELEMENTS }
    requires first { IsSumOf W a _na }
    requires second { IsSumOf W b _nb }
    requires third { IsSumOf W c _nc }
    ensures { result ≡ (a +ℤ b) +ℤ c }
{
    let two = sum_of_two::<W>(a, _na, b, _nb);
    sum_of_two::<W>(two, _na + _nb, c, _nc)
}

// The sum of the greater of two numbers and a third.
#[inline(always)]
pub(crate) fn greater_sum<const W: u32>(
    a: i128,
    _na: u32,
    b: i128,
    _nb: u32,
    c: i128,
    _nc: u32,
) -> i128
    requires few { _na + _nb + _nc ≤ MAX_ELEMENTS }
    requires first { IsSumOf W a _na }
    requires second { IsSumOf W b _nb }
    requires third { IsSumOf W c _nc }
    ensures { result ≡ int_max a b +ℤ c }
{
    sum_of_two::<W>(a.max(b), _na + _nb, c, _nc)
}
