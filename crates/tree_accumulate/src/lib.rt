//! Skeletons on binary trees. No call recurs on the tree.
#![tactic(auto)]

mod children;
mod filling;
mod mapping;

pub use children::{getchl, getchr};
pub use mapping::{map, zip};
