//! Lines as they are written.

use crate::head::{BothHead, ChildHead, FlatHead, FoldHead, MapHead, PlainHead};
use crate::kind::Kind;
use script_words::{SpelledFunction, Word};

/// A skeleton, in groups of those that are written alike.
#[derive(Drop)]
pub(crate) enum Written<'a> {
    Mapped {
        head: MapHead,
        f: SpelledFunction,
        x: Word<'a>,
    },
    Mapln {
        leaf: SpelledFunction,
        node: SpelledFunction,
        x: Word<'a>,
    },
    Zip {
        x: Word<'a>,
        y: Word<'a>,
    },
    Plain {
        head: PlainHead,
        x: Word<'a>,
    },
    Folded {
        head: FoldHead,
        op: Word<'a>,
        x: Word<'a>,
    },
    Flat {
        head: FlatHead,
        op: Word<'a>,
        x: Word<'a>,
    },
    Both {
        head: BothHead,
        down: Word<'a>,
        across: Word<'a>,
        x: Word<'a>,
    },
    Dacc {
        op: Word<'a>,
        start: i64,
        x: Word<'a>,
    },
    Child {
        head: ChildHead,
        start: i64,
        x: Word<'a>,
    },
}

/// A line.
#[derive(Drop)]
pub(crate) enum Form<'a> {
    Input {
        name: Word<'a>,
        kind: Kind,
        like: Option<Word<'a>>,
    },
    Let {
        name: Word<'a>,
        written: Written<'a>,
    },
    Print {
        at: u32,
        of: Word<'a>,
    },
}
