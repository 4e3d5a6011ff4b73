//! The names of the operators on lists and matrices.

ghost use Rattle.std.specs.Prelude.{◌≡◌, not, IfSome};
ghost use Rattle.op_catalog.specs.Catalog.{name_of, op_named, takes_of, typed_of, is_end, is_commutative_pair, abides};

use crate::takes::{OpFault, Takes};
use op_laws::ElemType;

/// An operator on lists and matrices, by its name.
#[derive(Clone, Copy, Debug, PartialEq, Eq)]
pub enum ListOp {
    /// The sum.
    Add,
    /// The product modulo 2^64.
    Mul,
    /// The least number.
    Min,
    /// The greatest number.
    Max,
    /// The bits that are set in all numbers.
    And,
    /// The bits that are set in some number.
    Or,
    /// The bits that are set in an odd number of numbers.
    Xor,
    /// The greatest sum of a segment.
    Mss,
    /// The composition of affine functions.
    Affine,
    /// The first element.
    First,
    /// The last element.
    Last,
}

impl ListOp {
    const ALL: [ListOp; 11] = [
        ListOp::Add,
        ListOp::Mul,
        ListOp::Min,
        ListOp::Max,
        ListOp::And,
        ListOp::Or,
        ListOp::Xor,
        ListOp::Mss,
        ListOp::Affine,
        ListOp::First,
        ListOp::Last,
    ];

    fn name(self) -> &'static [u8]
        ensures { result.now ≡ name_of self }
    {
        match self {
            ListOp::Add => b"add",
            ListOp::Mul => b"mul",
            ListOp::Min => b"min",
            ListOp::Max => b"max",
            ListOp::And => b"and",
            ListOp::Or => b"or",
            ListOp::Xor => b"xor",
            ListOp::Mss => b"mss",
            ListOp::Affine => b"affine",
            ListOp::First => b"first",
            ListOp::Last => b"last",
        }
    }

    /// The operator of this name.
    pub fn of_name(word: &[u8]) -> Option<ListOp>
        ensures value { result ≡ op_named word.now }
        ensures named { IfSome result (λ op. name_of op ≡ word.now) }
        ensures known { (op : _) → name_of op ≡ word.now → result ≡ Some op }
    {
        Self::find_named(word)
    }

    fn find_named(word: &[u8]) -> Option<ListOp>
        ensures { result ≡ op_named word.now }
    {
        ListOp::ALL.iter().copied().find(|op| word == op.name())
    }

    /// Whether it reduces a list without elements.
    pub fn has_unit(self) -> bool
        ensures { result ≡ not (is_end self) }
    {
        !self.is_end()
    }

    // Whether it answers one of the elements.
    fn is_end(self) -> bool
        ensures { result ≡ is_end self }
    {
        matches!(self, ListOp::First | ListOp::Last)
    }

    /// The types of element that it takes.
    pub fn takes(self) -> Takes
        ensures { result ≡ takes_of self }
    {
        match self {
            ListOp::Add | ListOp::Mss => Takes::Sums,
            ListOp::Min | ListOp::Max => Takes::Numbers,
            ListOp::Mul | ListOp::And | ListOp::Or | ListOp::Xor => Takes::Words,
            ListOp::Affine => Takes::Pairs,
            ListOp::First | ListOp::Last => Takes::All,
        }
    }

    /// The type of its results for elements of this type.
    pub fn typed(self, ty: ElemType) -> Result<ElemType, OpFault>
        ensures { result ≡ typed_of self ty }
    {
        self.takes().typed(ty)
    }
}

/// Whether a matrix may be cut anywhere, where the one operator joins downwards and the other
/// across: both are the same commutative operator, or one is `First` or `Last`.
pub fn abiding(down: ListOp, across: ListOp) -> bool
    ensures { result ≡ abides down across }
{
    down.is_end() || across.is_end() || is_commutative_pair(down, across)
}

// Whether the two are the same operator, and it is commutative.
fn is_commutative_pair(down: ListOp, across: ListOp) -> bool
    ensures { result ≡ is_commutative_pair down across }
{
    matches!(
        (down, across),
        (ListOp::Add, ListOp::Add)
            | (ListOp::Mul, ListOp::Mul)
            | (ListOp::Min, ListOp::Min)
            | (ListOp::Max, ListOp::Max)
            | (ListOp::And, ListOp::And)
            | (ListOp::Or, ListOp::Or)
            | (ListOp::Xor, ListOp::Xor)
    )
}
