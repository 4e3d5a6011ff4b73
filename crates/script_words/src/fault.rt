//! What is wrong with a line.
ghost use Rattle.std.specs.Prelude.{◌≡◌};
ghost use Rattle.script_words.specs.declared.fault.LineFault.TheVariants.{Memory};

use std::alloc::{AllocError, AllocFailed};

/// What is wrong with a script, in the order of the steps that look for it.
#[derive(Clone, Copy, Debug, PartialEq, Eq)]
pub enum ScriptWhat {
    /// No line of the grammar goes on with this word, or the line ends too early.
    BadLine,
    /// A `(` that would be the 30th open one.
    TooDeep,
    /// The 65th print line.
    TooManyPrints,
    /// No earlier line binds the name.
    UnknownName,
    /// An earlier line binds or prints the name already.
    Rebound,
    /// What the name stands for isn't of a kind that may stand there.
    WrongKind,
    /// No operator for values of this kind has this name.
    UnknownOp,
    /// The number of components isn't the one that is wanted.
    WrongArity,
    /// A number is too wide, or would be.
    TooWide,
    /// The operator has no unit for an empty list.
    NoUnit,
    /// The two operators don't abide.
    NotAbiding,
    /// The two values aren't known to have the same shape.
    ShapeDiffers,
    /// More than four components.
    TupleTooLong,
}

/// What is wrong with a line, and at which column, counted from 1.
#[derive(Clone, Copy, Debug, PartialEq, Eq)]
pub struct Spot {
    pub column: u32,
    pub what: ScriptWhat,
}

/// Why a line isn't read.
#[derive(Clone, Copy, Debug, PartialEq, Eq)]
pub enum LineFault {
    /// Want of memory.
    Memory,
    /// The line is at fault there.
    Spot(Spot),
}

impl From<AllocError> for LineFault {
    ghost from_gives = { λ _ e. e ≡ Memory };

    fn from(_e: AllocError) -> LineFault {
        LineFault::Memory
    }
}

impl<T: Drop> From<AllocFailed<T>> for LineFault {
    ghost from_gives = { λ _ e. e ≡ Memory };

    fn from(_e: AllocFailed<T>) -> LineFault {
        LineFault::Memory
    }
}
