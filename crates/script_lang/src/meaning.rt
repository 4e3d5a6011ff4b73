//! What input and print lines mean after earlier lines.
ghost use Rattle.std.specs.Prelude.{◌≡◌, ◌<◌, ◌-◌, ◌^◌, length, map, Some, IfOk, IsTrue};
ghost use Rattle.plain_text.specs.Numbers.{is_name};
ghost use Rattle.script_words.specs.Read.{Gives};
ghost use Rattle.script_lang.specs.Steps.{input_binding, input_across, like_line, input_line, print_line};
ghost use Rattle.script_lang.specs.Views.{binding_of, statement_of};

use crate::kind::Kind;
use crate::line::{Bound, Line};
use crate::names::{is_new, is_printed, known_at, prints};
use op_laws::{ElemType, Width};
use plain_text::Name;
use script_words::{LineFault, ScriptWhat, Word, at};
use std::alloc::{AllocError, Global};

/// The most lines that print.
const MAX_PRINTS: usize = 64;

fn input_across(kind: Kind, n: u32) -> u32
    requires { n < 2 ^ 31 - 2 }
    ensures { result ≡ input_across kind n }
{
    match kind {
        Kind::Matrix => 2 * n + 2,
        _ => 0,
    }
}

fn input_bound(
    alloc: Global,
    name: &Word<'_>,
    kind: Kind,
    shape: u32,
    across: u32,
) -> Result<Bound, AllocError>
    requires name { IsTrue (is_name name.now.text) }
    ensures { IfOk result (λ b. binding_of b ≡ input_binding name.now kind shape across) }
{
    let name = Name::of(alloc, name.text())?;
    let ty = ElemType::one(Width::W64);
    Ok(Bound {
        name,
        kind,
        ty,
        shape,
        across,
    })
}

#[tactic(auto, unfolding(crate::specs::Steps::input_line), using(crate::proofs::ListLemmas::lengths))]
pub(crate) fn input_line(
    alloc: Global,
    lines: &[Line],
    name: &Word<'_>,
    kind: Kind,
) -> Result<Line, LineFault>
    requires few { length lines.now < 2 ^ 31 - 2 }
    requires name { IsTrue (is_name name.now.text) }
    ensures { Gives statement_of result (input_line (map statement_of lines.now) name.now kind) }
{
    is_new(lines, name)?;
    let n = lines.len() as u32;
    let bound = input_bound(alloc, name, kind, 2 * n + 1, input_across(kind, n))?;
    Ok(Line::Input { bound, like: None })
}

#[tactic(auto, unfolding(crate::specs::Steps::like_line))]
pub(crate) fn like_line(
    alloc: Global,
    lines: &[Line],
    name: &Word<'_>,
    kind: Kind,
    like: &Word<'_>,
) -> Result<Line, LineFault>
    requires few { length lines.now < 2 ^ 31 }
    requires name { IsTrue (is_name name.now.text) }
    ensures { Gives statement_of result (like_line (map statement_of lines.now) name.now kind like.now) }
{
    let x = known_at(lines, like)?;
    is_new(lines, name)?;
    if !(x.input && x.bound.kind.is(kind)) {
        return Err(at(x.column, ScriptWhat::WrongKind));
    }
    let bound = input_bound(alloc, name, kind, x.bound.shape, x.bound.across)?;
    let like = Some(x.line);
    Ok(Line::Input { bound, like })
}

#[tactic(auto, unfolding(crate::specs::Steps::print_line))]
pub(crate) fn print_line(lines: &[Line], column: u32, of: &Word<'_>) -> Result<Line, LineFault>
    requires few { length lines.now < 2 ^ 31 }
    ensures { Gives statement_of result (print_line (map statement_of lines.now) column of.now) }
{
    if prints(lines) >= MAX_PRINTS {
        return Err(at(column, ScriptWhat::TooManyPrints));
    }
    let x = known_at(lines, of)?;
    if is_printed(lines, x.line) {
        return Err(at(x.column, ScriptWhat::Rebound));
    }
    Ok(Line::Print { of: x.line })
}
