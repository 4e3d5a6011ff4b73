//! Numbers, counts and marks in front of bytes, in one pass.
ghost use Rattle.std.specs.Prelude.{◌≡◌, ◌≤◌, ◌<◌, IfSome, length, take, true};
ghost use Rattle.std.specs.Str.Parse.{digits_value};
ghost use Rattle.std.specs.List.{list_all};
ghost use Rattle.std.specs.Char.{is_ascii_digit};
ghost use Rattle.data_text.specs.Front.{IsFrontNumber, IsSignedFront, IsFrontCount, IsFrontMark};

use crate::numbers::signed;
use crate::runs::is_blank;
use crate::stage::mark_of;

// So many digits are in 64 bits.
const FEW: usize = 19;

// The digits that bytes begin with, at most 19 of them: the number that they write, and how many they are.
#[inline(always)]
fn front_digits(bytes: &[u8]) -> (u64, usize)
    ensures within { result.1 ≤ length bytes.now }
    ensures few { result.1 ≤ 19 }
    ensures digits { list_all is_ascii_digit (take result.1 bytes.now) ≡ true }
    ensures value { result.0 ≡ digits_value 10 (take result.1 bytes.now) }
{
    let mut n: u64 = 0;
    for (i, b) in bytes.iter().enumerate() {
        if i == FEW || !b.is_ascii_digit() {
            return (n, i);
        }
        n = n * 10 + u64::from(*b - b'0');
    }
    (n, bytes.len())
}

/// The count of few digits that bytes begin with and the length of its word, where a blank follows.
#[inline(always)]
pub fn front_count(bytes: &[u8]) -> Option<(u64, usize)>
    ensures { IfSome result (λ r. IsFrontCount bytes.now r.0 r.1) }
{
    let (n, count) = front_digits(bytes);
    if count == 0 || count == bytes.len() || !is_blank(bytes[count]) {
        return None;
    }
    Some((n, count))
}

// The number of few digits that bytes begin with, or its opposite, where a blank follows.
#[inline(always)]
fn signed_front(negative: bool, bytes: &[u8]) -> Option<(i64, usize)>
    ensures { IfSome result (λ r. IsSignedFront negative bytes.now r.0 r.1) }
{
    let Some((n, count)) = front_count(bytes) else {
        return None;
    };
    match signed(negative, n) {
        Some(x) => Some((x, count)),
        None => None,
    }
}

/// The number of few digits that bytes begin with and the length of its word, where a blank follows.
#[inline(always)]
pub fn front_number(bytes: &[u8]) -> Option<(i64, usize)>
    ensures { IfSome result (λ r. IsFrontNumber bytes.now r.0 r.1) }
{
    match bytes.split_first() {
        None => None,
        Some((first, rest)) => {
            if *first == b'-' {
                match signed_front(true, rest) {
                    Some((x, count)) => Some((x, count + 1)),
                    None => None,
                }
            } else {
                signed_front(false, bytes)
            }
        }
    }
}

/// Whether bytes begin with the mark of a leaf or of an inner node, where a blank follows.
#[inline(always)]
pub fn front_mark(bytes: &[u8]) -> Option<bool>
    ensures { IfSome result (λ leaf. IsFrontMark bytes.now leaf) }
{
    if bytes.len() < 2 || !is_blank(bytes[1]) {
        return None;
    }
    mark_of(&bytes[..1])
}
