//! Kinds of values.
ghost use Rattle.std.specs.Prelude.{◌≡◌};
ghost use Rattle.script_words.specs.Functions.{look_up};
ghost use Rattle.script_lang.specs.Grammar.{kinds};
ghost use Rattle.script_lang.specs.Tables.{same_kind};

/// The kind of what a name stands for.
#[derive(Clone, Copy, Debug, PartialEq, Eq)]
pub enum Kind {
    /// One element.
    Single,
    List,
    Matrix,
    /// A binary tree.
    Tree,
    /// A rose tree.
    Rose,
}

impl Kind {
    // The kind of an input that has this word.
    pub(crate) fn of_word(text: &[u8]) -> Option<Kind>
        ensures { result ≡ look_up kinds text.now }
    {
        if text == b"list".as_slice() {
            return Some(Kind::List);
        }
        if text == b"matrix".as_slice() {
            return Some(Kind::Matrix);
        }
        if text == b"tree".as_slice() {
            return Some(Kind::Tree);
        }
        if text == b"rose".as_slice() {
            return Some(Kind::Rose);
        }
        None
    }

    // Whether it is this one.
    pub(crate) fn is(self, other: Kind) -> bool
        ensures { result ≡ same_kind self other }
    {
        match (self, other) {
            (Kind::Single, Kind::Single) => true,
            (Kind::List, Kind::List) => true,
            (Kind::Matrix, Kind::Matrix) => true,
            (Kind::Tree, Kind::Tree) => true,
            (Kind::Rose, Kind::Rose) => true,
            _ => false,
        }
    }
}
