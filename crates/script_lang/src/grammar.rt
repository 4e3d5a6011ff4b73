//! The form of a line.
ghost use Rattle.std.specs.Prelude.{◌≡◌, ◌<◌, ◌^◌, length, IfOk};
ghost use Rattle.script_words.specs.Read.{Gives};
ghost use Rattle.script_lang.specs.Grammar.{like_at, input_at, let_at, print_at, form_at};
ghost use Rattle.script_lang.specs.Views.{form_of, IsNamed};

use crate::form::Form;
use crate::head::Head;
use crate::kind::Kind;
use crate::slots::slots_at;
use script_words::{LineFault, ScriptWhat, Word, at, name_at, next, nothing_more, this_at};
use std::alloc::Global;

// What stands after the kind of an input.
#[tactic(auto, unfolding(crate::specs::Grammar::like_at))]
fn like_at<'a>(end: u32, words: &[Word<'a>]) -> Result<Option<Word<'a>>, LineFault>
    ensures { Gives (λ x. x) result (like_at end words.now) }
{
    match words.split_first() {
        None => Ok(None),
        Some(_) => {
            let (_, rest) = this_at(b"like".as_slice(), end, words)?;
            let (of, rest) = name_at(end, rest)?;
            nothing_more(rest)?;
            Ok(Some(of.again()))
        }
    }
}

#[tactic(auto, unfolding(crate::specs::Grammar::input_at))]
fn input_at<'a>(end: u32, words: &[Word<'a>]) -> Result<Form<'a>, LineFault>
    ensures gives { Gives form_of result (input_at end words.now) }
    ensures named { IfOk result IsNamed }
{
    let (name, rest) = name_at(end, words)?;
    let (word, rest) = next(end, rest)?;
    let Some(kind) = Kind::of_word(word.text()) else {
        return Err(at(word.column(), ScriptWhat::BadLine));
    };
    let like = like_at(end, rest)?;
    let name = name.again();
    Ok(Form::Input { name, kind, like })
}

#[tactic(auto, unfolding(crate::specs::Grammar::let_at))]
fn let_at<'a>(alloc: Global, end: u32, words: &[Word<'a>]) -> Result<Form<'a>, LineFault>
    requires few { length words.now < 2 ^ 32 }
    ensures gives { Gives form_of result (let_at end words.now) }
    ensures named { IfOk result IsNamed }
{
    let (name, rest) = name_at(end, words)?;
    let (_, rest) = this_at(b"=".as_slice(), end, rest)?;
    let (word, rest) = next(end, rest)?;
    let Some(head) = Head::of_word(word.text()) else {
        return Err(at(word.column(), ScriptWhat::BadLine));
    };
    let (written, rest) = slots_at(alloc, head, end, rest)?;
    nothing_more(rest)?;
    let name = name.again();
    Ok(Form::Let { name, written })
}

#[tactic(auto, unfolding(crate::specs::Grammar::print_at))]
fn print_at<'a>(column: u32, end: u32, words: &[Word<'a>]) -> Result<Form<'a>, LineFault>
    ensures gives { Gives form_of result (print_at column end words.now) }
    ensures named { IfOk result IsNamed }
{
    let (of, rest) = name_at(end, words)?;
    nothing_more(rest)?;
    let of = of.again();
    Ok(Form::Print { at: column, of })
}

/// The form of a line that ends at this column.
#[tactic(auto, unfolding(crate::specs::Grammar::form_at))]
pub(crate) fn form_at<'a>(
    alloc: Global,
    end: u32,
    words: &[Word<'a>],
) -> Result<Form<'a>, LineFault>
    requires few { length words.now < 2 ^ 32 }
    ensures gives { Gives form_of result (form_at end words.now) }
    ensures named { IfOk result IsNamed }
{
    let (word, rest) = next(end, words)?;
    if word.text() == b"input".as_slice() {
        return input_at(end, rest);
    }
    if word.text() == b"let".as_slice() {
        return let_at(alloc, end, rest);
    }
    if word.text() == b"print".as_slice() {
        return print_at(word.column(), end, rest);
    }
    Err(at(word.column(), ScriptWhat::BadLine))
}
