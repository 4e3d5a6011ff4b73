//! Widths, elements, types of elements and lists of elements: the values that all other crates
//! compute with.
#![tactic(auto)]

mod column;
mod columns;
mod elem_type;
mod laws;
mod list;
mod matrix;
mod operator;
mod tree_operator;
mod tup;
mod width;

pub use elem_type::ElemType;
pub use laws::{matrices_are_cut, roses_go_by_children, shapes_are_kept};
pub use list::List;
pub use matrix::Matrix;
pub use operator::{Abiding, Commutative, Lifted, Monoid, Semi};
pub use tree_operator::{DownOp, RoseDown, RoseOp, TreeOp};
pub use tup::Tup;
pub use width::Width;

/// How many elements a list has at most. So many numbers of one width have a sum inside the next
/// width.
pub const MAX_ELEMENTS: u32 = 4_294_967_295;
