//! Whether data fits a script.
ghost use Rattle.std.specs.Prelude.{◌≡◌, ◌+◌, ◌<◌, ◌^◌, length, map, option_map, option_and_then};
ghost use Rattle.std.specs.List.{list_all};
ghost use Rattle.script_lang.specs.Steps.{bound_by};
ghost use Rattle.data_text.specs.Named.{section_of, content_of};
ghost use Rattle.script_lang.specs.Views.{binding_of, statement_of};
ghost use Rattle.fuse_rewrite.specs.Meaning.{content_under};
ghost use Rattle.script_run.specs.Fit.{is_of_kind, same_shape, content_for, content_at, has_shape_of, is_like, content_fit, line_fit, inputs_after, fit_of, takes_list, over_lists};

use data_text::{Sections, Value};
use script_lang::{Bound, Kind, Line, Script};
use thiserror::Error;

/// How data doesn't fit a script. The numbers count the script's input lines from 0.
#[derive(Clone, Copy, Debug, PartialEq, Eq, Error)]
pub enum FitFault {
    /// The data has no section of the input's name.
    #[error("no section for input {0}")]
    NotThere(u32),
    /// The section of the input's name is of another kind.
    #[error("another kind of section for input {0}")]
    WrongKind(u32),
    /// The section hasn't the shape of the one whose input this one is like.
    #[error("another shape of section for input {0}")]
    NotLike(u32),
}

/// Whether the data has a section for each input of the script, of its kind and shape; if not, the
/// first fault in the order of the lines. It takes no memory. Sections that no input names may be
/// anything. Its time is in proportion to the lines times the sections, and to the sizes of the
/// trees that are to be alike.
pub fn fit(script: &Script, sections: &Sections) -> Result<(), FitFault>
    ensures { result ≡ fit_of (map statement_of script.now) (map section_of sections.now) }
{
    let lines = script.as_slice();
    let mut inputs = 0;
    for n in 0..script.lines() {
        let line = &lines[n as usize];
        fit_line(lines, sections, inputs, line)?;
        inputs = inputs_after(inputs, line);
    }
    Ok(())
}

/// Whether each input of a script is a list. Data that fits such a script has a list for each input, as
/// long as the list of the input that it is like.
pub fn over_lists(script: &Script) -> bool
    ensures { result ≡ over_lists (map statement_of script.now) }
{
    all_take_lists(script.as_slice())
}

fn all_take_lists(lines: &[Line]) -> bool
    ensures { result ≡ list_all (λ l. takes_list (statement_of l)) lines.now }
{
    lines.iter().all(takes_list)
}

// Whether a line is no input, or that of a list.
fn takes_list(line: &Line) -> bool
    ensures { result ≡ takes_list (statement_of line.now) }
{
    match line {
        Line::Input { bound, .. } => matches!(bound.kind, Kind::List),
        Line::Let { .. } | Line::Print { .. } => true,
    }
}

// How many inputs there are after a line, before which there are so many.
fn inputs_after(inputs: u32, line: &Line) -> u32
    requires { inputs + 1 < 2 ^ 32 }
    ensures { result ≡ inputs_after inputs (statement_of line.now) }
{
    match line {
        Line::Input { .. } => inputs + 1,
        Line::Let { .. } | Line::Print { .. } => inputs,
    }
}

// Whether the data fits a line, before which there are so many inputs.
fn fit_line(lines: &[Line], sections: &Sections, inputs: u32, line: &Line) -> Result<(), FitFault>
    ensures { result ≡ line_fit (map statement_of lines.now) (map section_of sections.now) inputs (statement_of line.now) }
{
    match line {
        Line::Input { bound, like } => fit_input(lines, sections, inputs, bound, *like),
        Line::Let { .. } | Line::Print { .. } => Ok(()),
    }
}

// Whether the data fits the input of this number.
fn fit_input(
    lines: &[Line],
    sections: &Sections,
    input: u32,
    bound: &Bound,
    like: Option<u32>,
) -> Result<(), FitFault>
    ensures { result ≡ content_fit (map statement_of lines.now) (map section_of sections.now) input (binding_of bound.now) like (content_for (map section_of sections.now) (binding_of bound.now)) }
{
    let Some(value) = value_for(sections, bound) else {
        return Err(FitFault::NotThere(input));
    };
    if !is_of_kind(bound.kind, value) {
        return Err(FitFault::WrongKind(input));
    }
    if !is_like(lines, sections, like, value) {
        return Err(FitFault::NotLike(input));
    }
    Ok(())
}

// The value of the section that has the input's name.
fn value_for<'a>(sections: &'a Sections, bound: &Bound) -> Option<&'a Value>
    ensures { option_map (λ v. content_of v.now) result ≡ content_for (map section_of sections.now) (binding_of bound.now) }
{
    value_under(sections, bound.name.bytes())
}

// The value of the section of this name.
fn value_under<'a>(sections: &'a Sections, name: &[u8]) -> Option<&'a Value>
    ensures { option_map (λ v. content_of v.now) result ≡ content_under name.now (map section_of sections.now) }
{
    let Some(i) = sections.find(name) else {
        return None;
    };
    Some(&sections.at(i).value)
}

// Whether a value has the shape that an input that is like another one asks for.
fn is_like(lines: &[Line], sections: &Sections, like: Option<u32>, value: &Value) -> bool
    ensures { result ≡ is_like (map statement_of lines.now) (map section_of sections.now) like (content_of value.now) }
{
    match like {
        None => true,
        Some(line) => has_shape_of(value_at(lines, sections, line), value),
    }
}

// The value of the section that has the name bound by the line of this number.
fn value_at<'a>(lines: &[Line], sections: &'a Sections, line: u32) -> Option<&'a Value>
    ensures { option_map (λ v. content_of v.now) result ≡ content_at (map statement_of lines.now) (map section_of sections.now) line }
{
    match lines.get(line as usize) {
        None => None,
        Some(line) => value_in(sections, line),
    }
}

// The value of the section that has the name that a line binds.
fn value_in<'a>(sections: &'a Sections, line: &Line) -> Option<&'a Value>
    ensures { option_map (λ v. content_of v.now) result ≡ option_and_then (content_for (map section_of sections.now)) (bound_by (statement_of line.now)) }
{
    match line {
        Line::Input { bound, .. } => value_for(sections, bound),
        Line::Let { bound, .. } => value_for(sections, bound),
        Line::Print { .. } => None,
    }
}

// Whether there is another value, of the shape of this one.
fn has_shape_of(other: Option<&Value>, value: &Value) -> bool
    ensures { result ≡ has_shape_of (option_map (λ v. content_of v.now) other.entry) (content_of value.now) }
{
    match other {
        None => false,
        Some(other) => same_shape(other, value),
    }
}

fn is_of_kind(kind: Kind, value: &Value) -> bool
    ensures { result ≡ is_of_kind kind (content_of value.now) }
{
    match (kind, value) {
        (Kind::List, Value::List(_)) => true,
        (Kind::Matrix, Value::Matrix(_)) => true,
        (Kind::Tree, Value::Tree(_)) => true,
        (Kind::Rose, Value::Rose(_)) => true,
        _ => false,
    }
}

// Whether two values have the same kind and shape.
fn same_shape(a: &Value, b: &Value) -> bool
    ensures { result ≡ same_shape (content_of a.now) (content_of b.now) }
{
    match (a, b) {
        (Value::List(x), Value::List(y)) => x.len() == y.len(),
        (Value::Matrix(x), Value::Matrix(y)) => x.rows() == y.rows() && x.cols() == y.cols(),
        (Value::Tree(x), Value::Tree(y)) => x.same_shape(y),
        (Value::Rose(x), Value::Rose(y)) => x.same_shape(y),
        _ => false,
    }
}
