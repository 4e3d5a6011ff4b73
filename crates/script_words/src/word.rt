//! A word of a line.
ghost use Rattle.std.specs.Prelude.{◌≡◌, ◌+◌, ◌<◌, ◌^◌, ◌↔◌, IsTrue, length};

use std::marker::Model;

/// A word, and the column of its first byte, counted from 1.
#[derive(Drop)]
pub struct Word<'a> {
    column: u32,
    text: &'a [u8],
}

impl<'a> Model for Word<'a> {
    ghost use Rattle.std.specs.Prelude.{◌+◌, ◌<◌, ◌^◌, length};
    ghost use Rattle.script_words.specs.Lines.{Token};

    ghost Value = { Token };

    ghost view = { λ w. record { column = w.column; text = w.text.now } };

    ghost invariant = { λ w. w.column + length w.text.now < 2 ^ 32 };
}

impl<'a> Word<'a> {
    pub(crate) fn new(column: u32, text: &'a [u8]) -> Word<'a>
        requires short { column + length text.now < 2 ^ 32 }
        ensures { result ≡ record { column = column; text = text.now } }
    {
        Word { column, text }
    }

    pub fn column(&self) -> u32
        ensures { result ≡ self.now.column }
    {
        self.column
    }

    /// The column just past its last byte.
    pub fn end(&self) -> u32
        ensures { result ≡ self.now.column + length self.now.text }
    {
        self.column + self.text.len() as u32
    }

    pub fn text(&self) -> &'a [u8]
        ensures { result.now ≡ self.now.text }
    {
        self.text
    }

    pub fn is(&self, text: &[u8]) -> bool
        ensures { IsTrue result ↔ (self.now.text ≡ text.now) }
    {
        self.text == text
    }

    /// The same word once more.
    pub fn again(&self) -> Word<'a>
        ensures { result ≡ self.now }
    {
        Word {
            column: self.column,
            text: self.text,
        }
    }
}
