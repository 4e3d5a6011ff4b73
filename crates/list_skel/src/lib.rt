//! Skeletons on lists: workers draw the blocks of a pipe, and no list is built in between.
#![tactic(auto)]

mod blocks;
mod building;
mod folds;
mod joining;
mod reduction;
mod scanning;

pub use building::build;
pub use reduction::reduce;
pub use scanning::{scan, scanr};
pub use worker_split::Cut;
