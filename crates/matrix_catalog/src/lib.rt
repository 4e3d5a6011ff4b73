//! The operators on matrices, each made of an operator on lists, and the way to each from two names and
//! a type of element.
#![tactic(auto)]

mod commuting;
mod first_across;
mod first_down;
mod last_across;
mod last_down;
mod laws;
mod same;
mod shape;
mod visitor;
mod width;

pub use commuting::Commuting;
pub use first_across::FirstAcross;
pub use first_down::FirstDown;
pub use last_across::LastAcross;
pub use last_down::LastDown;
pub use laws::matrices_are_tables;
pub use same::Same;
pub use shape::{End, Shape, part};
pub use visitor::{MatrixVisitor, visit_matrix_operator};
