//! From the name of an operator on trees and a type of element to a call at the operator's own type.
#![tactic(auto)]

mod down_operator;
mod rose_down_operator;
mod rose_operator;
mod tree_operator;
mod visitor;
mod width;

pub use down_operator::DownOperator;
pub use rose_down_operator::RoseDownOperator;
pub use rose_operator::RoseOperator;
pub use tree_operator::TreeOperator;
pub use visitor::{
    DownVisitor, RoseDownVisitor, RoseVisitor, TreeVisitor, visit_down_operator,
    visit_rose_down_operator, visit_rose_operator, visit_tree_operator,
};
