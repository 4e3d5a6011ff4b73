//! Numbers that may be absent.

ghost use Rattle.std.specs.Prelude.{◌≡◌, ◌+◌, ◌≤◌};
ghost use Rattle.std.specs.Int.{int_min, int_max};
ghost use Rattle.op_catalog.specs.Sums.{IsSumOf};
ghost use Rattle.tree_aux.specs.BoundTrees.{of_both, single_or_naught};
ghost use Rattle.tree_aux.specs.LongPaths.{MayBeSumOf, or_greater, longer};

use crate::sums::sum_of_two;
use op_laws::{MAX_ELEMENTS, Tup};

// The lesser of two numbers, of which an absent one changes nothing.
#[inline(always)]
pub(crate) fn least(a: Option<i128>, b: Option<i128>) -> Option<i128>
    ensures { result ≡ of_both int_min a b }
{
    match (a, b) {
        (Some(a), Some(b)) => Some(a.min(b)),
        (Some(a), None) => Some(a),
        (None, b) => b,
    }
}

// The greater one.
#[inline(always)]
pub(crate) fn greatest(a: Option<i128>, b: Option<i128>) -> Option<i128>
    ensures { result ≡ of_both int_max a b }
{
    match (a, b) {
        (Some(a), Some(b)) => Some(a.max(b)),
        (Some(a), None) => Some(a),
        (None, b) => b,
    }
}

// The element of a number; of an absent one 0.
#[inline(always)]
pub(crate) fn one_or_naught(a: Option<i128>) -> Tup
    ensures { result ≡ single_or_naught a }
{
    match a {
        Some(a) => Tup::one(a),
        None => Tup::one(0),
    }
}

// The number, or a greater one that is there.
#[inline(always)]
pub(crate) fn or_greater_of(a: i128, b: Option<i128>) -> i128
    ensures { result ≡ or_greater a b }
{
    match b {
        Some(b) => a.max(b),
        None => a,
    }
}

// `best`, or the sum of `way` and of the value below it, where that is there and greater.
#[inline(always)]
pub(crate) fn longer_of<const W: u32>(
    way: i128,
    _nway: u32,
    below: Option<i128>,
    _nbelow: u32,
    best: i128,
) -> i128
    requires few { _nway + _nbelow ≤ MAX_ELEMENTS }
    requires way { IsSumOf W way _nway }
    requires below { MayBeSumOf W below _nbelow }
    ensures { result ≡ longer way below best }
{
    match below {
        Some(v) => best.max(sum_of_two::<W>(way, _nway, v, _nbelow)),
        None => best,
    }
}
