//! Numbers among the words.
ghost use Rattle.std.specs.Prelude.{◌≡◌, ◌≤◌, ◌<◌, ◌^◌, IfSome};
ghost use Rattle.std.specs.List.{list_all};
ghost use Rattle.std.specs.Char.{is_ascii_digit};
ghost use Rattle.command_words.specs.Words.{number_in};

// The most digits that a number may have.
const MOST_DIGITS: usize = 20;

fn all_digits(word: &str) -> bool
    ensures { result ≡ list_all is_ascii_digit word.now }
{
    word.as_bytes().iter().all(|b| b.is_ascii_digit())
}

/// The number that 1 to 20 digits write, where it is in the range.
pub fn number_in(least: u64, most: u64, word: &str) -> Option<u64>
    ensures value { result ≡ number_in least most word.now }
    ensures within { IfSome result (λ n. n ≤ most) }
{
    if word.len() > MOST_DIGITS || !all_digits(word) {
        return None;
    }
    match word.parse::<u64>() {
        Ok(n) if least <= n && n <= most => Some(n),
        _ => None,
    }
}
