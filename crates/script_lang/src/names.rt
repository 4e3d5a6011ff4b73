//! The names that earlier lines bind and print. Each look-up goes over the lines.
ghost use Rattle.std.specs.Prelude.{◌≡◌, ◌<◌, ◌^◌, length, option_map, map, filter};
ghost use Rattle.std.specs.List.{list_any};
ghost use Rattle.script_words.specs.Read.{Gives};
ghost use Rattle.script_lang.specs.Steps.{binds, bound_by, is_input, known_by, found_from, known_at, is_new, is_print, prints_line};
ghost use Rattle.script_lang.specs.Views.{binding_of, statement_of, known_of};
ghost use Rattle.script_lang.specs.Counts.{prints_from};

use crate::known::Known;
use crate::line::{Bound, Line};
use script_words::{LineFault, ScriptWhat, Word, at};

fn binds(name: &[u8], line: &Line) -> bool
    ensures { result ≡ binds name.now (statement_of line.now) }
{
    match line {
        Line::Input { bound, .. } => bound.name.bytes() == name,
        Line::Let { bound, .. } => bound.name.bytes() == name,
        Line::Print { .. } => false,
    }
}

fn known_by(column: u32, line: u32, input: bool, bound: &Bound) -> Known<'_>
    ensures { known_of result ≡ known_by column line input (binding_of bound.now) }
{
    Known {
        column,
        line,
        input,
        bound,
    }
}

fn bound_at(column: u32, n: u32, line: &Line) -> Option<Known<'_>>
    ensures { option_map known_of result ≡ option_map (known_by column n (is_input (statement_of line.now))) (bound_by (statement_of line.now)) }
{
    match line {
        Line::Input { bound, .. } => Some(known_by(column, n, true, bound)),
        Line::Let { bound, .. } => Some(known_by(column, n, false, bound)),
        Line::Print { .. } => None,
    }
}

fn found<'b>(lines: &'b [Line], column: u32, name: &[u8]) -> Option<Known<'b>>
    requires { length lines.now < 2 ^ 31 }
    ensures { option_map known_of result ≡ found_from 0 column name.now (map statement_of lines.now) }
{
    let mut n: u32 = 0;
    for line in lines {
        if binds(name, line) {
            return bound_at(column, n, line);
        }
        n += 1;
    }
    None
}

/// What a name stands for.
#[tactic(auto, unfolding(crate::specs::Steps::known_at))]
pub(crate) fn known_at<'b>(lines: &'b [Line], word: &Word<'_>) -> Result<Known<'b>, LineFault>
    requires { length lines.now < 2 ^ 31 }
    ensures { Gives known_of result (known_at (map statement_of lines.now) word.now) }
{
    match found(lines, word.column(), word.text()) {
        None => Err(at(word.column(), ScriptWhat::UnknownName)),
        Some(known) => Ok(known),
    }
}

fn some_binds(lines: &[Line], name: &[u8]) -> bool
    ensures { result ≡ list_any (λ l. binds name.now (statement_of l)) lines.now }
{
    lines.iter().any(|line| binds(name, line))
}

fn is_bound(lines: &[Line], name: &[u8]) -> bool
    ensures { result ≡ list_any (binds name.now) (map statement_of lines.now) }
{
    some_binds(lines, name)
}

/// No earlier line binds the name.
#[tactic(auto, unfolding(crate::specs::Steps::is_new))]
pub(crate) fn is_new(lines: &[Line], word: &Word<'_>) -> Result<(), LineFault>
    ensures { Gives (λ x. x) result (is_new (map statement_of lines.now) word.now) }
{
    if is_bound(lines, word.text()) {
        return Err(at(word.column(), ScriptWhat::Rebound));
    }
    Ok(())
}

fn prints_line(n: u32, line: &Line) -> bool
    ensures { result ≡ prints_line n (statement_of line.now) }
{
    match line {
        Line::Print { of } => *of == n,
        _ => false,
    }
}

fn some_prints(lines: &[Line], n: u32) -> bool
    ensures { result ≡ list_any (λ l. prints_line n (statement_of l)) lines.now }
{
    lines.iter().any(|line| prints_line(n, line))
}

/// Whether a line prints what the line of this number binds.
pub(crate) fn is_printed(lines: &[Line], n: u32) -> bool
    ensures { result ≡ list_any (prints_line n) (map statement_of lines.now) }
{
    some_prints(lines, n)
}

fn is_print(line: &Line) -> bool
    ensures { result ≡ is_print (statement_of line.now) }
{
    matches!(line, Line::Print { .. })
}

fn count_prints(lines: &[Line]) -> usize
    ensures { result ≡ prints_from 0 (map statement_of lines.now) }
{
    let mut n = 0;
    for line in lines {
        if is_print(line) {
            n += 1;
        }
    }
    n
}

/// How many lines print.
pub(crate) fn prints(lines: &[Line]) -> usize
    ensures { result ≡ length (filter is_print (map statement_of lines.now)) }
{
    count_prints(lines)
}
