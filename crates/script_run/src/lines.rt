//! Let lines by their numbers.

ghost use Rattle.std.specs.Prelude.{◌≡◌, map, slice_get, Some};
ghost use Rattle.script_lang.specs.Syntax.{Binding, Skeleton, binds_let};
ghost use Rattle.script_lang.specs.Views.{statement_of, binding_of, skeleton_of};

use script_lang::{Bound, Line, Skel};

/// What the let line of this number binds.
pub(crate) fn bound_at(lines: &[Line], n: u32) -> &Bound
    requires { (b : Binding) × (s : Skeleton) × (slice_get (map statement_of lines.now) n ≡ Some (binds_let b s)) }
    ensures { (b : Binding) → (s : Skeleton) → slice_get (map statement_of lines.now) n ≡ Some (binds_let b s) → binding_of result.now ≡ b }
{
    match &lines[n as usize] {
        Line::Let { bound, .. } => bound,
        Line::Input { .. } | Line::Print { .. } => unreachable!(),
    }
}

/// The skeleton of the let line of this number.
pub(crate) fn skeleton_at(lines: &[Line], n: u32) -> &Skel
    requires { (b : Binding) × (s : Skeleton) × (slice_get (map statement_of lines.now) n ≡ Some (binds_let b s)) }
    ensures { (b : Binding) → (s : Skeleton) → slice_get (map statement_of lines.now) n ≡ Some (binds_let b s) → skeleton_of result.now ≡ s }
{
    match &lines[n as usize] {
        Line::Let { skel, .. } => skel,
        Line::Input { .. } | Line::Print { .. } => unreachable!(),
    }
}
