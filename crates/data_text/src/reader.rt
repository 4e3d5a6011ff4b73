//! Words from bytes.
ghost use Rattle.std.specs.Prelude.{◌≡◌, ◌≢◌, ◌<◌, ◌≤◌, ◌+◌, ◌*◌, ℕ, List, [], ◌∷◌, ◌++◌, length, map, IsTrue, Ok, OnOk, IfOk, true, false, vec_len, drop, slice_index};
ghost use Rattle.data_text.specs.Words.{is_blank};
ghost use Rattle.data_text.specs.Runs.{is_solid, are_blank};
ghost use Rattle.data_text.specs.Stages.{words_of_section};
ghost use Rattle.data_text.specs.Resume.{words_left};

use crate::data_fault::DataFault;
use crate::front::{front_count, front_mark, front_number};
use crate::parser::Parser;
use crate::runs::{blank_run, is_blank, solid_run};
use crate::sections::Sections;

// A word has so many bytes at most.
const LONGEST_WORD: usize = 40;

/// A reader of data that comes in pieces. It keeps the word that a piece's end has cut.
#[derive(Drop)]
pub struct Reader {
    pub parser: Parser,
    pub word: Vec<u8>,
    pub at: u64,
    pub gap: u32,
    ghost short: { vec_len word ≤ 40 },
    ghost behind: { vec_len word ≤ at },
    ghost small: { gap ≤ 65536 },
    // No data without a fault has so many bytes that their number leaves 64 bits.
    ghost bounded: { at + 65576 * words_left parser ≤ 65576 * (64 * words_of_section) + gap + vec_len word },
    ghost solid: { IsTrue (is_solid word.items) },
}

impl Reader {
    ghost use Rattle.data_text.specs.Told.{GoesOn, Gives};
    ghost use Rattle.data_text.specs.Named.{section_of};
    ghost use Rattle.data_text.specs.Front.{IsWordOf, IsMarkWord, IsCountWord};
    ghost use Rattle.data_text.specs.Stages.{awaits_number, awaits_mark, awaits_count};
    ghost use Rattle.data_text.specs.Continued.{continued};

    // Hands on the word that ends here, if there is one.
    #[inline(always)]
    fn end_word(&mut self) -> Result<(), DataFault>
        ensures blank { (end b : ℕ) (bytes : List ℕ) → is_blank b ≡ true → GoesOn result (continued self.old end (b ∷ bytes)) (λ _. continued self.new end (b ∷ bytes)) }
        ensures last { (end : ℕ) → GoesOn result (continued self.old end []) (λ _. continued self.new end []) }
        ensures empty { OnOk result (self.new.word.items ≡ []) }
        ensures at { OnOk result (self.new.at ≡ self.old.at) }
    {
        if !self.word.is_empty() {
            let start = self.at - self.word.len() as u64;
            self.parser.take(start, &self.word)?;
            self.word.clear();
            self.gap = 0;
        }
        Ok(())
    }

    // Passes so many blanks.
    #[inline(always)]
    fn pass_blanks(&mut self, count: usize) -> Result<(), DataFault>
        requires empty { self.old.word.items ≡ [] }
        ensures step { (end : ℕ) (blanks bytes : List ℕ) → are_blank blanks ≡ true → length blanks ≡ count
            → GoesOn result (continued self.old end (blanks ++ bytes)) (λ _. continued self.new end bytes) }
        ensures at { OnOk result (self.new.at ≡ self.old.at + count) }
    {
        let room = 65_536 - self.gap;
        if count > room as usize {
            return Err(DataFault::LongGap(self.at + u64::from(room)));
        }
        self.gap += count as u32;
        self.at += count as u64;
        Ok(())
    }

    // Takes a word after which a blank stands, and that blank.
    #[inline(always)]
    fn take_word(&mut self, text: &[u8]) -> Result<(), DataFault>
        requires empty { self.old.word.items ≡ [] }
        requires some { 0 < length text.now }
        requires solid { is_solid text.now ≡ true }
        ensures step { (end b : ℕ) (bytes : List ℕ) → is_blank b ≡ true
            → GoesOn result (continued self.old end (text.now ++ b ∷ bytes)) (λ _. continued self.new end bytes) }
        ensures at { OnOk result (self.new.at ≡ self.old.at + (length text.now + 1)) }
    {
        if text.len() > LONGEST_WORD {
            return Err(DataFault::LongWord(self.at));
        }
        self.parser.take(self.at, text)?;
        self.at += text.len() as u64 + 1;
        self.gap = 1;
        Ok(())
    }

    // Keeps bytes of a word that may go on after them.
    fn hold(&mut self, text: &[u8]) -> Result<(), DataFault>
        requires solid { is_solid text.now ≡ true }
        ensures step { (end : ℕ) (bytes : List ℕ) → GoesOn result (continued self.old end (text.now ++ bytes)) (λ _. continued self.new end bytes) }
        ensures at { OnOk result (self.new.at ≡ self.old.at + length text.now) }
    {
        if text.len() > LONGEST_WORD - self.word.len() {
            return Err(DataFault::LongWord(self.at - self.word.len() as u64));
        }
        self.word.extend_from_slice(text)?;
        self.at += text.len() as u64;
        Ok(())
    }

    // Takes a number whose word has so many bytes, and the blank after it.
    #[inline(always)]
    fn pass_number(&mut self, x: i64, count: usize) -> Result<(), DataFault>
        requires awaited { awaits_number self.old.parser.stage ≡ true }
        requires empty { self.old.word.items ≡ [] }
        requires short { count ≤ 40 }
        ensures step { (end b : ℕ) (text bytes : List ℕ) → IsWordOf text x count → is_blank b ≡ true
            → GoesOn result (continued self.old end (text ++ b ∷ bytes)) (λ _. continued self.new end bytes) }
        ensures at { OnOk result (self.new.at ≡ self.old.at + (count + 1)) }
    {
        self.parser.put(self.at, x)?;
        self.at += count as u64 + 1;
        self.gap = 1;
        Ok(())
    }

    // Takes the blanks that a piece begins with, and says how many.
    #[inline(always)]
    fn step_blank(&mut self, piece: &[u8]) -> Result<usize, DataFault>
        requires some { 0 < length piece.now }
        requires blank { is_blank (slice_index piece.now 0) ≡ true }
        ensures moves { IfOk result (λ n. 0 < n) }
        ensures within { IfOk result (λ n. n ≤ length piece.now) }
        ensures at { IfOk result (λ n. self.new.at ≡ self.old.at + n) }
        ensures step { (end : ℕ) (bytes : List ℕ) → GoesOn result (continued self.old end (piece.now ++ bytes)) (λ n. continued self.new end (drop n piece.now ++ bytes)) }
    {
        let count = blank_run(piece);
        self.end_word()?;
        self.pass_blanks(count)?;
        Ok(count)
    }

    // Takes the bytes of a word that a piece begins with, and a blank after it, and says how many.
    fn step_word(&mut self, piece: &[u8]) -> Result<usize, DataFault>
        requires some { 0 < length piece.now }
        requires solid { is_blank (slice_index piece.now 0) ≡ false }
        ensures moves { IfOk result (λ n. 0 < n) }
        ensures within { IfOk result (λ n. n ≤ length piece.now) }
        ensures at { IfOk result (λ n. self.new.at ≡ self.old.at + n) }
        ensures step { (end : ℕ) (bytes : List ℕ) → GoesOn result (continued self.old end (piece.now ++ bytes)) (λ n. continued self.new end (drop n piece.now ++ bytes)) }
    {
        let count = solid_run(piece);
        if count < piece.len() && self.word.is_empty() {
            self.take_word(&piece[..count])?;
            return Ok(count + 1);
        }
        self.hold(&piece[..count])?;
        Ok(count)
    }

    // Takes the number that a piece begins with, or what else it begins with, and says how many bytes it took.
    #[inline(always)]
    fn step_number(&mut self, piece: &[u8]) -> Result<usize, DataFault>
        requires awaited { awaits_number self.old.parser.stage ≡ true }
        requires empty { self.old.word.items ≡ [] }
        requires some { 0 < length piece.now }
        requires solid { is_blank (slice_index piece.now 0) ≡ false }
        ensures moves { IfOk result (λ n. 0 < n) }
        ensures within { IfOk result (λ n. n ≤ length piece.now) }
        ensures at { IfOk result (λ n. self.new.at ≡ self.old.at + n) }
        ensures step { (end : ℕ) (bytes : List ℕ) → GoesOn result (continued self.old end (piece.now ++ bytes)) (λ n. continued self.new end (drop n piece.now ++ bytes)) }
    {
        let Some((x, count)) = front_number(piece) else {
            return self.step_word(piece);
        };
        self.pass_number(x, count)?;
        Ok(count + 1)
    }

    // Takes a mark, and the blank after it.
    #[inline(always)]
    fn pass_mark(&mut self, leaf: bool) -> Result<(), DataFault>
        requires awaited { awaits_mark self.old.parser.stage ≡ true }
        requires empty { self.old.word.items ≡ [] }
        ensures step { (end b : ℕ) (text bytes : List ℕ) → IsMarkWord text leaf → is_blank b ≡ true
            → GoesOn result (continued self.old end (text ++ b ∷ bytes)) (λ _. continued self.new end bytes) }
        ensures at { OnOk result (self.new.at ≡ self.old.at + 2) }
    {
        self.parser.put_leaf(self.at, leaf)?;
        self.at += 2;
        self.gap = 1;
        Ok(())
    }

    // Takes the mark that a piece begins with, or what else it begins with, and says how many bytes it took.
    #[inline(always)]
    fn step_mark(&mut self, piece: &[u8]) -> Result<usize, DataFault>
        requires awaited { awaits_mark self.old.parser.stage ≡ true }
        requires empty { self.old.word.items ≡ [] }
        requires some { 0 < length piece.now }
        requires solid { is_blank (slice_index piece.now 0) ≡ false }
        ensures moves { IfOk result (λ n. 0 < n) }
        ensures within { IfOk result (λ n. n ≤ length piece.now) }
        ensures at { IfOk result (λ n. self.new.at ≡ self.old.at + n) }
        ensures step { (end : ℕ) (bytes : List ℕ) → GoesOn result (continued self.old end (piece.now ++ bytes)) (λ n. continued self.new end (drop n piece.now ++ bytes)) }
    {
        let Some(leaf) = front_mark(piece) else {
            return self.step_word(piece);
        };
        self.pass_mark(leaf)?;
        Ok(2)
    }

    // Takes a number of children whose word has so many bytes, and the blank after it.
    #[inline(always)]
    fn pass_count(&mut self, children: u64, count: usize) -> Result<(), DataFault>
        requires awaited { awaits_count self.old.parser.stage ≡ true }
        requires empty { self.old.word.items ≡ [] }
        requires short { count ≤ 40 }
        ensures step { (end b : ℕ) (text bytes : List ℕ) → IsCountWord text children count → is_blank b ≡ true
            → GoesOn result (continued self.old end (text ++ b ∷ bytes)) (λ _. continued self.new end bytes) }
        ensures at { OnOk result (self.new.at ≡ self.old.at + (count + 1)) }
    {
        self.parser.put_count(self.at, children)?;
        self.at += count as u64 + 1;
        self.gap = 1;
        Ok(())
    }

    // Takes the count that a piece begins with, or what else it begins with, and says how many bytes it took.
    #[inline(always)]
    fn step_count(&mut self, piece: &[u8]) -> Result<usize, DataFault>
        requires awaited { awaits_count self.old.parser.stage ≡ true }
        requires empty { self.old.word.items ≡ [] }
        requires some { 0 < length piece.now }
        requires solid { is_blank (slice_index piece.now 0) ≡ false }
        ensures moves { IfOk result (λ n. 0 < n) }
        ensures within { IfOk result (λ n. n ≤ length piece.now) }
        ensures at { IfOk result (λ n. self.new.at ≡ self.old.at + n) }
        ensures step { (end : ℕ) (bytes : List ℕ) → GoesOn result (continued self.old end (piece.now ++ bytes)) (λ n. continued self.new end (drop n piece.now ++ bytes)) }
    {
        let Some((children, count)) = front_count(piece) else {
            return self.step_word(piece);
        };
        self.pass_count(children, count)?;
        Ok(count + 1)
    }

    // Takes a word that a piece begins with, where no part of it was kept, and says how many bytes it took.
    #[inline(always)]
    fn step_new_word(&mut self, piece: &[u8]) -> Result<usize, DataFault>
        requires empty { self.old.word.items ≡ [] }
        requires some { 0 < length piece.now }
        requires solid { is_blank (slice_index piece.now 0) ≡ false }
        ensures moves { IfOk result (λ n. 0 < n) }
        ensures within { IfOk result (λ n. n ≤ length piece.now) }
        ensures at { IfOk result (λ n. self.new.at ≡ self.old.at + n) }
        ensures step { (end : ℕ) (bytes : List ℕ) → GoesOn result (continued self.old end (piece.now ++ bytes)) (λ n. continued self.new end (drop n piece.now ++ bytes)) }
    {
        if self.parser.awaits_number() {
            self.step_number(piece)
        } else if self.parser.awaits_mark() {
            self.step_mark(piece)
        } else if self.parser.awaits_count() {
            self.step_count(piece)
        } else {
            self.step_word(piece)
        }
    }

    // Takes what a piece begins with where it begins with no blank, and says how many bytes it took.
    #[inline(always)]
    fn step_solid(&mut self, piece: &[u8]) -> Result<usize, DataFault>
        requires some { 0 < length piece.now }
        requires solid { is_blank (slice_index piece.now 0) ≡ false }
        ensures moves { IfOk result (λ n. 0 < n) }
        ensures within { IfOk result (λ n. n ≤ length piece.now) }
        ensures at { IfOk result (λ n. self.new.at ≡ self.old.at + n) }
        ensures step { (end : ℕ) (bytes : List ℕ) → GoesOn result (continued self.old end (piece.now ++ bytes)) (λ n. continued self.new end (drop n piece.now ++ bytes)) }
    {
        if self.word.is_empty() {
            self.step_new_word(piece)
        } else {
            self.step_word(piece)
        }
    }

    // Takes some bytes from the front of a piece, and says how many.
    #[inline(always)]
    fn step(&mut self, piece: &[u8]) -> Result<usize, DataFault>
        requires { 0 < length piece.now }
        ensures moves { IfOk result (λ n. 0 < n) }
        ensures within { IfOk result (λ n. n ≤ length piece.now) }
        ensures at { IfOk result (λ n. self.new.at ≡ self.old.at + n) }
        ensures step { (end : ℕ) (bytes : List ℕ) → GoesOn result (continued self.old end (piece.now ++ bytes)) (λ n. continued self.new end (drop n piece.now ++ bytes)) }
    {
        if is_blank(piece[0]) {
            self.step_blank(piece)
        } else {
            self.step_solid(piece)
        }
    }

    /// Takes the next piece of the data.
    pub fn feed(&mut self, piece: &[u8]) -> Result<(), DataFault>
        ensures step { (end : ℕ) (bytes : List ℕ) → GoesOn result (continued self.old end (piece.now ++ bytes)) (λ _. continued self.new end bytes) }
        ensures at { OnOk result (self.new.at ≡ self.old.at + length piece.now) }
    {
        let mut done = 0;
        while done < piece.len() {
            done += self.step(&piece[done..])?;
        }
        Ok(())
    }

    /// The sections, where the data ends here.
    pub fn finish(mut self) -> Result<Sections, DataFault>
        ensures { Gives (λ s. map section_of s) result (continued self self.at []) }
    {
        self.end_word()?;
        let end = self.at;
        let Reader { parser, .. } = self;
        parser.finish(end)
    }
}
