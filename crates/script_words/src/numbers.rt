//! Words as numbers.
ghost use Rattle.std.specs.Prelude.{◌≡◌, min, option_map, option_and_then, true, pos, neg_ℤ, if◌then◌else◌};
ghost use Rattle.std.specs.Str.Parse.{digits_value};
ghost use Rattle.std.specs.List.{list_all};
ghost use Rattle.std.specs.Char.{is_ascii_digit};
ghost use Rattle.plain_text.specs.Numbers.{is_digits, count_of, number_of, kept_if, is_w64};
ghost use Rattle.script_words.specs.Reading.{short_number};

// The most bytes that a number may have.
const MAX_NUMBER_BYTES: usize = 40;

fn all_digits(text: &[u8]) -> bool
    ensures { result ≡ list_all is_ascii_digit text.now }
{
    text.iter().all(|b| b.is_ascii_digit())
}

// Whether a word is digits.
fn is_digits(text: &[u8]) -> bool
    ensures { result ≡ is_digits text.now }
{
    !text.is_empty() && all_digits(text)
}

// The number that digits write, or the greatest of 64 bits where it is greater.
fn digits_of(text: &[u8]) -> u64
    requires { is_digits text.now ≡ true }
    ensures { result ≡ min (digits_value 10 text.now) 18446744073709551615 }
{
    let mut n: u64 = 0;
    for b in text {
        n = n
            .saturating_mul(10)
            .saturating_add(u64::from(b.saturating_sub(b'0')));
    }
    n
}

// The number that a word of digits writes, or the greatest of 64 bits where it is greater.
fn count(text: &[u8]) -> Option<u64>
    ensures { result ≡ option_map (λ n. min n 18446744073709551615) (count_of text.now) }
{
    if is_digits(text) {
        Some(digits_of(text))
    } else {
        None
    }
}

// A number or its opposite, where it is in 64 bits.
fn signed(negative: bool, n: u64) -> Option<i64>
    ensures { result ≡ kept_if is_w64 (if negative then neg_ℤ (pos n) else pos n) }
{
    if negative {
        0i64.checked_sub_unsigned(n)
    } else {
        i64::try_from(n).ok()
    }
}

// The number that digits write, or its opposite, where it is in 64 bits.
#[tactic(auto, using(crate::proofs::NumberLemmas::capped))]
fn signed_count(negative: bool, digits: &[u8]) -> Option<i64>
    ensures { result ≡ option_and_then (λ n. kept_if is_w64 (if negative then neg_ℤ (pos n) else pos n)) (count_of digits.now) }
{
    match count(digits) {
        None => None,
        Some(n) => signed(negative, n),
    }
}

// The number of 64 bits that a word writes.
#[tactic(auto, unfolding(plain_text::specs::Numbers::number_of))]
fn number(text: &[u8]) -> Option<i64>
    ensures { result ≡ number_of text.now }
{
    match text.split_first() {
        None => None,
        Some((first, rest)) => {
            if *first == b'-' {
                signed_count(true, rest)
            } else {
                signed_count(false, text)
            }
        }
    }
}

/// The number of 64 bits that a word of at most 40 bytes writes.
pub(crate) fn short_number(text: &[u8]) -> Option<i64>
    ensures { result ≡ short_number text.now }
{
    if text.len() <= MAX_NUMBER_BYTES {
        number(text)
    } else {
        None
    }
}
