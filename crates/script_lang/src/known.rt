//! Arguments that earlier lines bind.

use crate::line::Bound;

/// An argument: the column of its name, the number of the line that binds it, and what that line
/// binds.
#[derive(Clone, Copy)]
pub(crate) struct Known<'a> {
    pub(crate) column: u32,
    pub(crate) line: u32,
    pub(crate) input: bool,
    pub(crate) bound: &'a Bound,
}
