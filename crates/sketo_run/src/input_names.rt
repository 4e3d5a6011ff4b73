//! Inputs of a script by their numbers, and their names.
ghost use Rattle.std.specs.Prelude.{◌≡◌, map, option_map, option_and_then};
ghost use Rattle.script_lang.specs.Views.{binding_of, statement_of};
ghost use Rattle.script_lang.specs.Sound.{binding_at};
ghost use Rattle.sketo_run.specs.Inputs.{input_at, input_name, like_name, name_bound};
ghost use Rattle.sketo_run.specs.InputSeen.{input_seen};

use script_lang::{Bound, Line};

/// An input of a script: what its line binds, and the line of the input that it is like.
#[derive(Clone, Copy)]
pub struct Input<'a> {
    bound: &'a Bound,
    like: Option<u32>,
}

// The input of this number.
fn input_at<'a>(lines: &'a [Line], i: u32) -> Option<Input<'a>>
    ensures { option_map input_seen result ≡ input_at (map statement_of lines.now) i }
{
    let mut left = i;
    for line in lines {
        if let Line::Input { bound, like } = line {
            if left == 0 {
                return Some(Input { bound, like: *like });
            }
            left -= 1;
        }
    }
    None
}

// What the line of this number binds.
fn bound_at<'a>(lines: &'a [Line], n: u32) -> Option<&'a Bound>
    ensures { option_map (λ b. binding_of b.now) result ≡ binding_at (map statement_of lines.now) n }
{
    match lines.get(n as usize) {
        Some(Line::Input { bound, .. } | Line::Let { bound, .. }) => Some(bound),
        Some(Line::Print { .. }) | None => None,
    }
}

// The name of what is bound; none has no bytes.
fn name_of<'a>(bound: Option<&'a Bound>) -> &'a [u8]
    ensures { result.now ≡ name_bound (option_map (λ b. binding_of b.now) bound.entry) }
{
    match bound {
        Some(bound) => bound.name.bytes(),
        None => b"",
    }
}

/// The name of the input of this number; none where there is none.
pub fn input_name<'a>(lines: &'a [Line], i: u32) -> &'a [u8]
    ensures { result.now ≡ input_name (map statement_of lines.now) i }
{
    match input_at(lines, i) {
        Some(input) => name_of(Some(input.bound)),
        None => b"",
    }
}

/// The name of the input that the input of this number is like; none where there is none.
pub fn like_name<'a>(lines: &'a [Line], i: u32) -> &'a [u8]
    ensures { result.now ≡ like_name (map statement_of lines.now) i }
{
    let Some(Input { like: Some(n), .. }) = input_at(lines, i) else {
        return b"";
    };
    name_of(bound_at(lines, n))
}
