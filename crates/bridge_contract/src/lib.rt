//! Bridges contracted one by one, what they give joined, and their own nodes filled.
#![tactic(auto)]

mod contraction;
mod down_summary;
mod falling;
mod filling_down;
mod filling_up;
mod head;
mod joining;
mod own_nodes;
mod summary;
mod together;
mod ways;

pub use contraction::contract;
pub use down_summary::DownSummary;
pub use falling::join_down;
pub use filling_down::expand_down;
pub use filling_up::expand_up;
pub use joining::{join_below, join_up};
pub use summary::Summary;
pub use together::{parts_are_subtrees, summaries_join, ways_join};
pub use ways::contract_down;
