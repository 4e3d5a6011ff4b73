//! The smallest parts of a line. A line ends at `end`, the column just past its last word.
ghost use Rattle.std.specs.Prelude.{◌≡◌, ◌+◌, length, IfOk, IsTrue};
ghost use Rattle.plain_text.specs.Numbers.{is_name};
ghost use Rattle.script_words.specs.declared.fault.LineFault.TheVariants as fault;
ghost use Rattle.script_words.specs.Read.{Gives, spot};
ghost use Rattle.script_words.specs.Reading.{next, name_at, this_at, number_at, nothing_more};

use crate::fault::{LineFault, ScriptWhat, Spot};
use crate::numbers::short_number;
use crate::word::Word;
use plain_text::is_name;

/// A fault at a column.
pub fn at(column: u32, what: ScriptWhat) -> LineFault
    ensures { result ≡ fault.Spot (spot column what) }
{
    LineFault::Spot(Spot { column, what })
}

/// The next word, and those after it.
#[tactic(auto, unfolding(crate::specs::Reading::next))]
pub fn next<'a, 'b>(
    end: u32,
    words: &'b [Word<'a>],
) -> Result<(&'b Word<'a>, &'b [Word<'a>]), LineFault>
    ensures gives { Gives (λ x. (x.0.now, x.1.now)) result (next end words.now) }
    ensures shorter { IfOk result (λ x. length x.1.now + 1 ≡ length words.now) }
{
    match words.split_first() {
        None => Err(at(end, ScriptWhat::BadLine)),
        Some((word, rest)) => Ok((word, rest)),
    }
}

/// A name, and the words after it.
#[tactic(auto, unfolding(crate::specs::Reading::name_at))]
pub fn name_at<'a, 'b>(
    end: u32,
    words: &'b [Word<'a>],
) -> Result<(&'b Word<'a>, &'b [Word<'a>]), LineFault>
    ensures gives { Gives (λ x. (x.0.now, x.1.now)) result (name_at end words.now) }
    ensures named { IfOk result (λ x. IsTrue (is_name x.0.now.text)) }
    ensures shorter { IfOk result (λ x. length x.1.now + 1 ≡ length words.now) }
{
    let (word, rest) = next(end, words)?;
    if !is_name(word.text()) {
        return Err(at(word.column(), ScriptWhat::BadLine));
    }
    Ok((word, rest))
}

/// This very word, and the words after it.
#[tactic(auto, unfolding(crate::specs::Reading::this_at))]
pub fn this_at<'a, 'b>(
    wanted: &[u8],
    end: u32,
    words: &'b [Word<'a>],
) -> Result<(&'b Word<'a>, &'b [Word<'a>]), LineFault>
    ensures gives { Gives (λ x. (x.0.now, x.1.now)) result (this_at wanted.now end words.now) }
    ensures shorter { IfOk result (λ x. length x.1.now + 1 ≡ length words.now) }
{
    let (word, rest) = next(end, words)?;
    if word.text() != wanted {
        return Err(at(word.column(), ScriptWhat::BadLine));
    }
    Ok((word, rest))
}

/// A number of w64, and the words after it.
#[tactic(auto, unfolding(crate::specs::Reading::number_at))]
pub fn number_at<'a, 'b>(
    end: u32,
    words: &'b [Word<'a>],
) -> Result<(i64, &'b [Word<'a>]), LineFault>
    ensures gives { Gives (λ x. (x.0, x.1.now)) result (number_at end words.now) }
    ensures shorter { IfOk result (λ x. length x.1.now + 1 ≡ length words.now) }
{
    let (word, rest) = next(end, words)?;
    match short_number(word.text()) {
        None => Err(at(word.column(), ScriptWhat::BadLine)),
        Some(n) => Ok((n, rest)),
    }
}

/// Nothing stands after what was read.
pub fn nothing_more(words: &[Word<'_>]) -> Result<(), LineFault>
    ensures { Gives (λ x. x) result (nothing_more words.now) }
{
    match words.split_first() {
        None => Ok(()),
        Some((word, _)) => Err(at(word.column(), ScriptWhat::BadLine)),
    }
}
