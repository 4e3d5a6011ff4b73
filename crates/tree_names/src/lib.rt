//! The names of the operators on binary trees and rose trees, and the types that each takes and gives.
#![tactic(auto)]

mod down_name;
mod rose_down_name;
mod rose_name;
mod tree_name;

pub use down_name::DownName;
pub use rose_down_name::RoseDownName;
pub use rose_name::RoseName;
pub use tree_name::TreeName;
