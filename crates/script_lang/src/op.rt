//! Operators of all tables.

use op_catalog::ListOp;
use tree_names::{DownName, RoseDownName, RoseName, TreeName};

/// An operator.
#[derive(Clone, Copy)]
pub enum Op {
    /// On lists and matrices.
    Flat(ListOp),
    /// Up a binary tree.
    Up(TreeName),
    /// Down a binary tree.
    Down(DownName),
    /// Up a rose tree.
    Rose(RoseName),
    /// Down a rose tree.
    RoseDown(RoseDownName),
}
