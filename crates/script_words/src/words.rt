//! The words of a line.
ghost use Rattle.std.specs.Prelude.{◌≡◌, ◌≤◌, ◌<◌, ◌-◌, ◌^◌, length, IfOk, position, find, not};
ghost use Rattle.std.specs.List.{position_or_len};
ghost use Rattle.script_words.specs.Lines.{is_line_blank, is_parenthesis, ends_word, has_words, tokens_from};
ghost use Rattle.script_words.specs.Runs.{rest_of_word};

use crate::word::Word;
use std::alloc::{AllocError, Global};

fn is_line_blank(b: u8) -> bool
    ensures { result ≡ is_line_blank b }
{
    b == b' ' || b == b'\t' || b == b'\r'
}

fn is_parenthesis(b: u8) -> bool
    ensures { result ≡ is_parenthesis b }
{
    b == b'(' || b == b')'
}

fn ends_word(b: u8) -> bool
    ensures { result ≡ ends_word b }
{
    is_line_blank(b) || is_parenthesis(b)
}

// The first byte other than blanks.
fn first_byte(line: &[u8]) -> Option<u8>
    ensures { result ≡ find (λ b. not (is_line_blank b)) line.now }
{
    line.iter().copied().find(|b| !is_line_blank(*b))
}

/// Whether a line is neither empty nor a comment.
pub(crate) fn has_words(line: &[u8]) -> bool
    ensures { result ≡ has_words line.now }
{
    match first_byte(line) {
        Some(b) => b != b';',
        None => false,
    }
}

fn first_end(bytes: &[u8]) -> Option<usize>
    ensures { result ≡ position ends_word bytes.now }
{
    bytes.iter().position(|b| ends_word(*b))
}

// How many bytes stand before the first that ends a word.
fn run_length(bytes: &[u8]) -> usize
    ensures value { result ≡ position_or_len ends_word bytes.now }
    ensures within { result ≤ length bytes.now }
{
    first_end(bytes).unwrap_or(bytes.len())
}

// How many more bytes the word has that begins with this one.
fn rest_of_word(first: u8, rest: &[u8]) -> usize
    ensures value { result ≡ rest_of_word first rest.now }
    ensures within { result ≤ length rest.now }
{
    if is_parenthesis(first) {
        0
    } else {
        run_length(rest)
    }
}

/// The words of a line.
pub(crate) fn words_of<'a>(alloc: Global, line: &'a [u8]) -> Result<Vec<Word<'a>>, AllocError>
    requires { length line.now < 2 ^ 32 - 1 }
    ensures value { IfOk result (λ v. v.items ≡ tokens_from 1 line.now) }
    ensures few { IfOk result (λ v. length v.items ≤ length line.now) }
{
    let mut words = Vec::new(alloc);
    let mut at = 0;
    while at < line.len() {
        let first = line[at];
        if is_line_blank(first) {
            at += 1;
        } else {
            let end = at + 1 + rest_of_word(first, &line[at + 1..]);
            words.push(Word::new(at as u32 + 1, &line[at..end]))?;
            at = end;
        }
    }
    Ok(words)
}
