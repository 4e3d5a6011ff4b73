//! Pipes of maps and filters over a list, and what their blocks come to with no list in between.
#![tactic(auto)]

mod block;
mod columns;
mod combining;
mod cuts;
mod head;
mod numbers;
mod pipe;
mod scan;
mod stage;

pub use block::{build_block, fold_block};
pub use cuts::blocks_follow;
pub use head::Head;
pub use pipe::Pipe;
pub use scan::scan_block;
pub use stage::Stage;
