//! A line of a script.
ghost use Rattle.std.specs.Prelude.{◌≡◌, ◌<◌, ◌^◌, length};

use crate::word::Word;
use std::marker::Model;

/// The words of a line, and its number, counted from 1.
#[derive(Drop)]
pub struct SourceLine<'a> {
    number: u32,
    words: Vec<Word<'a>>,
}

impl<'a> Model for SourceLine<'a> {
    ghost use Rattle.std.specs.Prelude.{◌<◌, ◌^◌, length};
    ghost use Rattle.script_words.specs.Lines.{Source};

    ghost Value = { Source };

    ghost view = { λ s. record { number = s.number; tokens = s.words.items } };

    ghost invariant = { λ s. length s.words.items < 2 ^ 32 };
}

impl<'a> SourceLine<'a> {
    pub(crate) fn new(number: u32, words: Vec<Word<'a>>) -> SourceLine<'a>
        requires few { length words.items < 2 ^ 32 }
        ensures { result ≡ record { number = number; tokens = words.entry.items } }
    {
        SourceLine { number, words }
    }

    pub fn number(&self) -> u32
        ensures { result ≡ self.now.number }
    {
        self.number
    }

    pub fn words(&self) -> &[Word<'a>]
        ensures value { result.now ≡ self.now.tokens }
        ensures few { length self.now.tokens < 2 ^ 32 }
    {
        &self.words
    }
}
