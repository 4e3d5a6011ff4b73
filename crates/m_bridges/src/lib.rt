//! The bridges of a binary tree: the parts that it falls into at its m-critical nodes.
#![tactic(auto)]

mod bridge;
mod cutting;
mod laws;

pub use bridge::{Bridge, Bridges};
pub use cutting::{critical, split};
pub use laws::own_places_are_numbered;
