//! The values that are printed.
ghost use Rattle.std.specs.Prelude.{◌≡◌, ◌<◌, ◌++◌, ℕ, false, length, map, Some, None, slice_get, slice_set, IfOk, OnOk};
ghost use Rattle.std.specs.List.{flat_map};
ghost use Rattle.script_lang.specs.Syntax.{Binding, prints};
ghost use Rattle.script_lang.specs.Steps.{prints_line};
ghost use Rattle.script_lang.specs.Views.{statement_of};
ghost use Rattle.script_lang.specs.Sound.{binding_at, IsTypedScript};
ghost use Rattle.fuse_rewrite.specs.Meaning.{named_by, printed_by};

use data_text::{Name, Named, Value};
use script_lang::Line;
use std::alloc::{AllocError, Global};

// The name that the line of this number binds.
fn name_at(lines: &[Line], n: u32) -> &Name
    requires { (b : Binding) × (binding_at (map statement_of lines.now) n ≡ Some b) }
    ensures { (b : Binding) → binding_at (map statement_of lines.now) n ≡ Some b → result.now ≡ b.name }
{
    match &lines[n as usize] {
        Line::Input { bound, .. } | Line::Let { bound, .. } => &bound.name,
        Line::Print { .. } => unreachable!(),
    }
}

// Moves the value of the line of this number out of the table, with the line's name.
fn add_printed(
    alloc: Global,
    named: &mut Vec<Named>,
    lines: &[Line],
    table: &mut [Option<Value>],
    n: u32,
) -> Result<(), AllocError>
    requires bound { (b : Binding) × (binding_at (map statement_of lines.now) n ≡ Some b) }
    requires within { n < length table.old }
    ensures added { OnOk result (named.new.items ≡ named.old.items ++ named_by (binding_at (map statement_of lines.now) n) (slice_get table.old n)) }
    ensures taken { OnOk result (table.new ≡ slice_set table.old n None) }
{
    match table[n as usize].take() {
        None => Ok(()),
        Some(value) => {
            let name = Name::of(alloc, name_at(lines, n).bytes())?;
            named.push(Named { name, value })?;
            Ok(())
        }
    }
}

// Prints a line: the value of a print line is moved out of the table.
fn print_line(
    alloc: Global,
    named: &mut Vec<Named>,
    lines: &[Line],
    table: &mut [Option<Value>],
    line: &Line,
) -> Result<(), AllocError>
    requires bound { (n : ℕ) → statement_of line.now ≡ prints n → (b : Binding) × (binding_at (map statement_of lines.now) n ≡ Some b) }
    requires within { (n : ℕ) → statement_of line.now ≡ prints n → n < length table.old }
    ensures added { OnOk result (named.new.items ≡ named.old.items ++ printed_by (map statement_of lines.now) table.old (statement_of line.now)) }
    ensures others { OnOk result ((n : ℕ) → prints_line n (statement_of line.now) ≡ false → slice_get table.new n ≡ slice_get table.old n) }
{
    match line {
        Line::Input { .. } | Line::Let { .. } => Ok(()),
        Line::Print { of } => add_printed(alloc, named, lines, table, *of),
    }
}

/// The printed names with their values, in the order of the print lines. A value is moved out of
/// the table, since its name is printed at most once; where the table has none, nothing is printed.
pub(crate) fn printed(
    alloc: Global,
    lines: &[Line],
    table: &mut [Option<Value>],
) -> Result<Vec<Named>, AllocError>
    requires typed { IsTypedScript (map statement_of lines.now) }
    requires long { length table.old ≡ length lines.now }
    ensures { IfOk result (λ named. named.items ≡ flat_map (printed_by (map statement_of lines.now) table.old) (map statement_of lines.now)) }
{
    let mut named = Vec::new(alloc);
    for line in lines {
        print_line(alloc, &mut named, lines, table, line)?;
    }
    Ok(named)
}
