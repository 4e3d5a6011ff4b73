//! Skeletons on matrices: workers draw blocks of cells, runs of rows or of columns.
#![tactic(auto)]

mod folds;
mod part;
mod reduction;
mod squares;
mod table;

pub use reduction::reduce;
pub use worker_split::Cut;
