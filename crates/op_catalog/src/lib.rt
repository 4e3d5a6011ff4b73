//! The operators on lists and matrices.
#![tactic(auto)]

mod affine;
mod bit_and;
mod bit_or;
mod bit_xor;
mod first;
mod last;
mod list_monoid;
mod list_op;
mod max;
mod min;
mod mss;
mod mul;
mod reduction;
mod sum;
mod takes;
mod types;
mod visitor;
mod words;

pub use affine::{Affine, Line};
pub use bit_and::And;
pub use bit_or::Or;
pub use bit_xor::Xor;
pub use first::First;
pub use last::Last;
pub use list_monoid::ListMonoid;
pub use list_op::{ListOp, abiding};
pub use max::Max;
pub use min::Min;
pub use mss::{Mss, Segments};
pub use mul::Mul;
pub use reduction::reduce;
pub use sum::Sum;
pub use takes::{OpFault, Takes};
pub use visitor::{ListVisitor, MonoidVisitor, visit_list_operator, visit_monoid};
