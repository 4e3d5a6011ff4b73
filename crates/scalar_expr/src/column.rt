//! Columns of numbers.

/// One component of a run of elements: a number for each element, in order.
#[derive(Clone, Copy, Debug)]
pub enum Column<'a> {
    /// Numbers of w64.
    Narrow(&'a [i64]),
    /// Numbers of w96 or w128.
    Wide(&'a [i128]),
}
