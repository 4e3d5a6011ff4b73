//! Lines as they are meant.

use crate::kind::Kind;
use crate::skel::Skel;
use op_laws::ElemType;
use plain_text::Name;

/// What a name stands for. Shapes are numbers: values with the same one have the same length, the
/// same marks or the same counts of children. The line with number i makes the shapes 2i + 1 and
/// 2i + 2, where it makes any.
#[derive(Drop)]
pub struct Bound {
    pub name: Name,
    pub kind: Kind,
    /// The type of its elements, or of the one element of a `Single`.
    pub ty: ElemType,
    /// Of a list, a tree or a rose tree, or of a matrix's rows. That of a `Single` is 0.
    pub shape: u32,
    /// Of a matrix's columns, else 0.
    pub across: u32,
}

/// A line that is neither empty nor a comment. The numbers are those of such lines, from 0 on.
#[derive(Drop)]
pub enum Line {
    Input {
        bound: Bound,
        /// The earlier input that this one is like.
        like: Option<u32>,
    },
    Let {
        bound: Bound,
        skel: Skel,
    },
    Print {
        of: u32,
    },
}
