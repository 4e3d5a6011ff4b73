//! The rule of a board's table: what its one word and the views of its seats say at every moment.
//!
//! The word is the counter of draws. Whoever steps on it holds a seat, which has no bytes. A seat's
//! view exists in proofs alone.
use atomic_table::{Join, Play, Split, TableRule};

/// What a board's table is told when it is made.
#[derive(Clone, Copy)]
pub struct Size {
    pub n: u32,
    pub workers: u32,
}

/// Which seat a view is of.
pub enum Role {
    /// The seat was taken in by another.
    Ended,
    /// The first seat: how many were made, itself among them, and how many it has taken in.
    First(u32, u32),
    /// The seat of this number, from 1 on.
    Other(u32),
}

/// What a seat knows. No value of it is made.
pub struct View {
    pub n: u32,
    pub workers: u32,
    // A clause reads an array as a list, of any length.
    pub tickets: [u32; 0],
    pub spent: bool,
    // The counter that the last draw found.
    pub read: u64,
    pub role: Role,
}

/// The rule.
pub struct Dealt;

impl TableRule<(), View, Size> for Dealt {
    ghost use Rattle.worker_split.specs.Rule.{IsDealt, first_view};

    ghost holds = { IsDealt };

    ghost first = { first_view };
}

/// A draw: one `fetch_add` of 1.
pub struct Draw;

impl Play<(), View> for Draw {
    ghost use Rattle.worker_split.specs.Rule.{Draws};

    ghost then = { Draws };
}

/// One more seat, split off the first.
pub struct Another;

impl Split<View> for Another {
    ghost use Rattle.worker_split.specs.Rule.{more_made, next_view};

    ghost left = { λ v. record v { role = more_made v.role } };

    ghost right = { next_view };
}

/// A spent seat, taken in by the first.
pub struct Gather;

impl Join<View> for Gather {
    ghost use Rattle.worker_split.specs.Rule.{gathered, ended};

    ghost both = { gathered };

    ghost spent = { ended };
}
