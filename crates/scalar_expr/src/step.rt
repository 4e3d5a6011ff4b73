//! The steps that a compiled function takes.

use crate::pair::Pair;

/// What a step reads: a component, a literal, or the stack at a place, from its bottom on.
#[derive(Clone, Copy, Debug)]
pub(crate) enum Operand {
    Part(u32),
    Const(i64),
    Place(usize),
}

/// What a step computes of two numbers. `Wrap` and `Copy` need the first alone.
#[derive(Clone, Copy, Debug)]
pub(crate) enum Calc {
    Two(Pair),
    /// The sum modulo 2^64.
    WrapAdd,
    /// The difference modulo 2^64.
    WrapSub,
    /// The number modulo 2^64.
    Wrap,
    /// The number itself.
    Copy,
}

/// One step. Its result goes to the place that stands last, where nothing is above it; what it
/// reads of the stack stands at that place or above.
#[derive(Clone, Copy, Debug)]
pub(crate) enum Step {
    Two(Calc, Operand, Operand, usize),
    Cond(Operand, Operand, Operand, usize),
}
