//! Line after line.
ghost use Rattle.std.specs.Prelude.{◌≡◌, ◌<◌, ◌≤◌, ◌^◌, ◌-◌, length, map, [], IfOk};
ghost use Rattle.script_words.specs.Reading.{end_of};
ghost use Rattle.script_words.specs.Read.{Gives};
ghost use Rattle.script_lang.specs.Script.{line_at, of_line, lines_at, GivesIn};
ghost use Rattle.script_lang.specs.Steps.{line_of};
ghost use Rattle.script_lang.specs.Sound.{IsSmallLine, AreSmallLines};
ghost use Rattle.script_lang.specs.Views.{form_of, IsNamed, statement_of};

use crate::elementwise::{child_line, mapln_line, mapped_line, plain_line, zip_line};
use crate::fault::ScriptFault;
use crate::form::{Form, Written};
use crate::grammar::form_at;
use crate::line::Line;
use crate::meaning::{input_line, like_line, print_line};
use crate::reductions::{both_line, dacc_line, flat_line, folded_line};
use script_words::{LineFault, SourceLine, Word};
use std::alloc::Global;

// The column just past the last word.
fn end_of(words: &[Word<'_>]) -> u32
    ensures { result ≡ end_of words.now }
{
    match words.last() {
        None => 1,
        Some(word) => word.end(),
    }
}

// What a line of this form means after these lines.
#[tactic(auto, unfolding(crate::specs::Steps::line_of))]
fn line_of(alloc: Global, lines: &[Line], form: Form<'_>) -> Result<Line, LineFault>
    requires few { length lines.now < 2 ^ 31 - 2 }
    requires named { IsNamed form }
    ensures { Gives statement_of result (line_of (map statement_of lines.now) (form_of form.entry)) }
{
    match form {
        Form::Input { name, kind, like } => match like {
            None => input_line(alloc, lines, &name, kind),
            Some(like) => like_line(alloc, lines, &name, kind, &like),
        },
        Form::Let { name, written } => match written {
            Written::Mapped { head, f, x } => mapped_line(alloc, lines, &name, head, f, &x),
            Written::Mapln { leaf, node, x } => mapln_line(alloc, lines, &name, leaf, node, &x),
            Written::Zip { x, y } => zip_line(alloc, lines, &name, &x, &y),
            Written::Plain { head, x } => plain_line(alloc, lines, &name, head, &x),
            Written::Folded { head, op, x } => folded_line(alloc, lines, &name, head, &op, &x),
            Written::Flat { head, op, x } => flat_line(alloc, lines, &name, head, &op, &x),
            Written::Both {
                head,
                down,
                across,
                x,
            } => both_line(alloc, lines, &name, head, &down, &across, &x),
            Written::Dacc { op, start, x } => dacc_line(alloc, lines, &name, &op, start, &x),
            Written::Child { head, start, x } => {
                child_line(alloc, lines, &name, head, start, &x)
            }
        },
        Form::Print { at, of } => print_line(lines, at, &of),
    }
}

// What the words of a line mean after these lines.
#[tactic(auto, unfolding(crate::specs::Script::line_at), using(crate::proofs::SmallLemmas::small_result))]
fn line_at(alloc: Global, lines: &[Line], words: &[Word<'_>]) -> Result<Line, LineFault>
    requires few { length lines.now < 2 ^ 31 - 2 }
    requires words { length words.now < 2 ^ 32 }
    ensures gives { Gives statement_of result (line_at (map statement_of lines.now) words.now) }
    ensures small { IfOk result (λ l. IsSmallLine (statement_of l)) }
{
    let form = form_at(alloc, end_of(words), words)?;
    line_of(alloc, lines, form)
}

fn source_line(alloc: Global, lines: &[Line], source: &SourceLine<'_>) -> Result<Line, ScriptFault>
    requires few { length lines.now < 2 ^ 31 - 2 }
    ensures gives { GivesIn statement_of result (of_line source.now.number (line_at (map statement_of lines.now) source.now.tokens)) }
    ensures small { IfOk result (λ l. IsSmallLine (statement_of l)) }
{
    match line_at(alloc, lines, source.words()) {
        Ok(line) => Ok(line),
        Err(LineFault::Memory) => Err(ScriptFault::Memory),
        Err(LineFault::Spot(spot)) => Err(ScriptFault::At {
            line: source.number(),
            column: spot.column,
            what: spot.what,
        }),
    }
}

/// The lines of a script, or its first fault.
pub(crate) fn lines_at(alloc: Global, sources: &[SourceLine<'_>]) -> Result<Vec<Line>, ScriptFault>
    requires few { length sources.now < 2 ^ 30 }
    ensures gives { GivesIn (λ v. map statement_of v.items) result (lines_at [] sources.now) }
    ensures few { IfOk result (λ v. length v.items ≤ length sources.now) }
    ensures small { IfOk result (λ v. AreSmallLines (map statement_of v.items)) }
{
    let mut lines = Vec::new(alloc);
    for source in sources {
        let line = source_line(alloc, &lines, source)?;
        lines.push(line)?;
    }
    Ok(lines)
}
