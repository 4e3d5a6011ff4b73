//! The values of inputs, moved out of the data.
ghost use Rattle.std.specs.Prelude.{◌≡◌, ◌<◌, false, length, map, bytes_eq, option_map, List, ℕ, IfSome, IfOk};
ghost use Rattle.std.specs.List.{All, HoldsAt};
ghost use Rattle.data_text.specs.Named.{section_of, content_of, place_of, IsOfW64};
ghost use Rattle.script_lang.specs.Steps.{binds};
ghost use Rattle.script_lang.specs.Views.{statement_of};
ghost use Rattle.script_lang.specs.Sound.{IsTypedScript};
ghost use Rattle.fuse_rewrite.specs.Meaning.{content_under, values_of_script};
ghost use Rattle.script_run.specs.Fits.{FitsLists};
ghost use Rattle.script_run.specs.Inputs.{input_value, ReadsList};
ghost use Rattle.script_run.specs.Runs.{AreInputsHeld};

use data_text::{Named, Sections, Value};
use script_lang::Line;
use std::alloc::{AllocError, Global};

// The place of the section of this name.
fn place(sections: &[Named], name: &[u8]) -> Option<usize>
    ensures place { result ≡ place_of name.now sections.now }
    ensures within { IfSome result (λ i. i < length sections.now) }
    ensures named { IfSome result (HoldsAt (λ s. s.name ≡ name.now) sections.now) }
{
    sections
        .iter()
        .position(|section| section.name.bytes() == name)
}

// Takes the value of this name out of the sections, if it is there.
fn take_value(sections: &mut Vec<Named>, name: &[u8]) -> Option<Value>
    requires of_w64 { All (λ s. IsOfW64 s.value) sections.old.items }
    ensures content { option_map content_of result ≡ content_under name.now (map section_of sections.old.items) }
    ensures taken { IfSome result IsOfW64 }
    ensures others { (other : List ℕ) → bytes_eq name.now other ≡ false → content_under other (map section_of sections.new.items) ≡ content_under other (map section_of sections.old.items) }
    ensures of_w64 { All (λ s. IsOfW64 s.value) sections.new.items }
{
    match place(sections, name) {
        None => None,
        Some(i) => Some(sections.remove(i).value),
    }
}

// Takes the list that a line reads out of the sections, if the line is an input.
fn take_input(sections: &mut Vec<Named>, line: &Line) -> Option<Value>
    requires list { ReadsList (map section_of sections.old.items) (statement_of line.now) }
    requires of_w64 { All (λ s. IsOfW64 s.value) sections.old.items }
    ensures value { result ≡ input_value (map section_of sections.old.items) (statement_of line.now) }
    ensures others { (name : List ℕ) → binds name (statement_of line.now) ≡ false → content_under name (map section_of sections.new.items) ≡ content_under name (map section_of sections.old.items) }
    ensures of_w64 { All (λ s. IsOfW64 s.value) sections.new.items }
{
    match line {
        Line::Input { bound, .. } => take_value(sections, bound.name.bytes()),
        Line::Let { .. } | Line::Print { .. } => None,
    }
}

/// A table with the values of inputs, by the numbers of their lines. They are moved out of the
/// data, and what no input names is dropped. Its time is in proportion to the lines times the
/// sections.
pub(crate) fn inputs_of(
    alloc: Global,
    lines: &[Line],
    sections: Sections,
) -> Result<Vec<Option<Value>>, AllocError>
    requires typed { IsTypedScript (map statement_of lines.now) }
    requires fits { FitsLists (map statement_of lines.now) (map section_of sections) }
    ensures long { IfOk result (λ table. length table.items ≡ length lines.now) }
    ensures held { IfOk result (λ table. AreInputsHeld (map statement_of lines.now) (values_of_script (map section_of sections) (map statement_of lines.now)) table.items) }
{
    let mut rest = sections.into_values();
    let mut table = Vec::new(alloc);
    for line in lines {
        table.push(take_input(&mut rest, line))?;
    }
    Ok(table)
}
