//! The words that may follow a `(`.
ghost use Rattle.std.specs.Prelude.{◌≡◌};
ghost use Rattle.script_words.specs.Functions.{look_up, calcs};

use scalar_expr::Pair;

/// What a scalar between parentheses begins with.
#[derive(Clone, Copy, Debug, PartialEq, Eq)]
pub(crate) enum Calc {
    /// An operator on two parts.
    Two(Pair),
    /// `if`, with three parts.
    Cond,
    /// `wrap`, with one part.
    Wrap,
}

impl Calc {
    pub(crate) fn of_word(text: &[u8]) -> Option<Calc>
        ensures { result ≡ look_up calcs text.now }
    {
        if text == b"+".as_slice() {
            return Some(Calc::Two(Pair::Add));
        }
        if text == b"-".as_slice() {
            return Some(Calc::Two(Pair::Sub));
        }
        if text == b"*".as_slice() {
            return Some(Calc::Two(Pair::Mul));
        }
        if text == b"min".as_slice() {
            return Some(Calc::Two(Pair::Min));
        }
        if text == b"max".as_slice() {
            return Some(Calc::Two(Pair::Max));
        }
        if text == b"<".as_slice() {
            return Some(Calc::Two(Pair::Less));
        }
        if text == b"=".as_slice() {
            return Some(Calc::Two(Pair::Same));
        }
        if text == b"and".as_slice() {
            return Some(Calc::Two(Pair::And));
        }
        if text == b"or".as_slice() {
            return Some(Calc::Two(Pair::Or));
        }
        if text == b"xor".as_slice() {
            return Some(Calc::Two(Pair::Xor));
        }
        if text == b"if".as_slice() {
            return Some(Calc::Cond);
        }
        if text == b"wrap".as_slice() {
            return Some(Calc::Wrap);
        }
        None
    }
}
