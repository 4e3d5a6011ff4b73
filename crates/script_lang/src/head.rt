//! The words of skeletons, together and in groups of those that are written alike.
ghost use Rattle.std.specs.Prelude.{◌≡◌, ◌==◌, drop};
ghost use Rattle.script_words.specs.Functions.{look_up};
ghost use Rattle.script_lang.specs.Grammar.{heads};
ghost use Rattle.script_lang.specs.Tables.{takes_kind, kind_given};
ghost use Rattle.script_lang.specs.Groups.{map_head, plain_head, fold_head, flat_head, both_head, child_head};

use crate::kind::Kind;

/// The word that a skeleton begins with.
#[derive(Clone, Copy)]
pub enum Head {
    Map,
    Mapln,
    Zip,
    Filter,
    Rev,
    Iota,
    Plain,
    Reduce,
    Scan,
    Scanr,
    Rows,
    Cols,
    Transpose,
    Uacc,
    Dacc,
    Getchl,
    Getchr,
}

/// Those with a function and an argument.
#[derive(Clone, Copy)]
pub(crate) enum MapHead {
    Map,
    Filter,
}

/// Those with an argument alone.
#[derive(Clone, Copy)]
pub(crate) enum PlainHead {
    Rev,
    Iota,
    Plain,
    Transpose,
}

/// Those with one operator of the table of the argument's kind.
#[derive(Clone, Copy)]
pub(crate) enum FoldHead {
    Reduce,
    Uacc,
}

/// Those with one operator on lists and matrices.
#[derive(Clone, Copy)]
pub(crate) enum FlatHead {
    Scan,
    Scanr,
    Rows,
    Cols,
}

/// Those with two operators.
#[derive(Clone, Copy)]
pub(crate) enum BothHead {
    Reduce,
    Scan,
}

/// Those with a number and an argument.
#[derive(Clone, Copy)]
pub(crate) enum ChildHead {
    Left,
    Right,
}

impl Head {
    /// The one of this word.
    pub(crate) fn of_word(text: &[u8]) -> Option<Head>
        ensures { result ≡ look_up heads text.now }
    {
        if text == b"map".as_slice() {
            return Some(Head::Map);
        }
        if text == b"mapln".as_slice() {
            return Some(Head::Mapln);
        }
        if text == b"zip".as_slice() {
            return Some(Head::Zip);
        }
        if text == b"filter".as_slice() {
            return Some(Head::Filter);
        }
        if text == b"rev".as_slice() {
            return Some(Head::Rev);
        }
        if text == b"iota".as_slice() {
            return Some(Head::Iota);
        }
        if text == b"plain".as_slice() {
            return Some(Head::Plain);
        }
        if text == b"reduce".as_slice() {
            return Some(Head::Reduce);
        }
        if text == b"scan".as_slice() {
            return Some(Head::Scan);
        }
        if text == b"scanr".as_slice() {
            return Some(Head::Scanr);
        }
        Self::of_later_word(text)
    }

    // The one of this word, among those from `rows` on.
    fn of_later_word(text: &[u8]) -> Option<Head>
        ensures { result ≡ look_up (drop 10 heads) text.now }
    {
        if text == b"rows".as_slice() {
            return Some(Head::Rows);
        }
        if text == b"cols".as_slice() {
            return Some(Head::Cols);
        }
        if text == b"transpose".as_slice() {
            return Some(Head::Transpose);
        }
        if text == b"uacc".as_slice() {
            return Some(Head::Uacc);
        }
        if text == b"dacc".as_slice() {
            return Some(Head::Dacc);
        }
        if text == b"getchl".as_slice() {
            return Some(Head::Getchl);
        }
        if text == b"getchr".as_slice() {
            return Some(Head::Getchr);
        }
        None
    }

    // Whether it takes values of this kind, with so many operators.
    pub(crate) fn takes(self, operators: usize, kind: Kind) -> bool
        ensures { result ≡ takes_kind self operators kind }
    {
        match self {
            Head::Map | Head::Zip => !matches!(kind, Kind::Single),
            Head::Reduce => {
                if operators == 2 {
                    matches!(kind, Kind::Matrix)
                } else {
                    matches!(kind, Kind::List | Kind::Tree | Kind::Rose)
                }
            }
            Head::Scan => {
                if operators == 2 {
                    matches!(kind, Kind::Matrix)
                } else {
                    matches!(kind, Kind::List)
                }
            }
            Head::Rows | Head::Cols | Head::Transpose => matches!(kind, Kind::Matrix),
            Head::Uacc | Head::Dacc => matches!(kind, Kind::Tree | Kind::Rose),
            Head::Mapln | Head::Getchl | Head::Getchr => matches!(kind, Kind::Tree),
            Head::Filter | Head::Rev | Head::Iota | Head::Plain | Head::Scanr => {
                matches!(kind, Kind::List)
            }
        }
    }

    // The kind of what it makes of a value of this kind.
    pub(crate) fn gives(self, kind: Kind) -> Kind
        ensures { result ≡ kind_given self kind }
    {
        match self {
            Head::Reduce => Kind::Single,
            Head::Rows | Head::Cols => Kind::List,
            _ => kind,
        }
    }
}

impl MapHead {
    pub(crate) fn head(self) -> Head
        ensures { result ≡ map_head self }
    {
        match self {
            MapHead::Map => Head::Map,
            MapHead::Filter => Head::Filter,
        }
    }
}

impl PlainHead {
    pub(crate) fn head(self) -> Head
        ensures { result ≡ plain_head self }
    {
        match self {
            PlainHead::Rev => Head::Rev,
            PlainHead::Iota => Head::Iota,
            PlainHead::Plain => Head::Plain,
            PlainHead::Transpose => Head::Transpose,
        }
    }
}

impl FoldHead {
    pub(crate) fn head(self) -> Head
        ensures { result ≡ fold_head self }
    {
        match self {
            FoldHead::Reduce => Head::Reduce,
            FoldHead::Uacc => Head::Uacc,
        }
    }
}

impl FlatHead {
    pub(crate) fn head(self) -> Head
        ensures { result ≡ flat_head self }
    {
        match self {
            FlatHead::Scan => Head::Scan,
            FlatHead::Scanr => Head::Scanr,
            FlatHead::Rows => Head::Rows,
            FlatHead::Cols => Head::Cols,
        }
    }
}

impl BothHead {
    pub(crate) fn head(self) -> Head
        ensures { result ≡ both_head self }
    {
        match self {
            BothHead::Reduce => Head::Reduce,
            BothHead::Scan => Head::Scan,
        }
    }
}

impl ChildHead {
    pub(crate) fn head(self) -> Head
        ensures { result ≡ child_head self }
    {
        match self {
            ChildHead::Left => Head::Getchl,
            ChildHead::Right => Head::Getchr,
        }
    }
}
