//! Binary trees and rose trees of elements, kept by columns in preorder.
#![tactic(auto)]

mod fault;
mod rose;
mod steps;
mod tree;

pub use fault::TreeFault;
pub use rose::Rose;
pub use steps::Steps;
pub use tree::{NodeRef, Tree};

/// How many nodes a rose tree has at most. A binary tree of twice as many and one is still one of
/// at most 2^32 - 1.
pub const MAX_ROSE_NODES: u32 = 2_147_483_647;
