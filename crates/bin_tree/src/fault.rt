//! Why nodes in preorder make no tree.

ghost use Rattle.std.specs.Prelude.{◌≡◌};
ghost use Rattle.bin_tree.specs.declared.fault.TreeFault.TheVariants.{Memory};

use std::alloc::AllocError;
use thiserror::Error;

/// Why nodes in preorder make no tree.
#[derive(Clone, Copy, Debug, PartialEq, Eq, Error)]
pub enum TreeFault {
    /// All nodes leave an open place. So no nodes at all are short.
    #[error("nodes are missing at the end")]
    Short,
    /// The nodes before this place, counted from 0, already make a whole tree.
    #[error("node {0} comes after the end of the tree")]
    Closed(u32),
    /// Want of memory.
    #[error("out of memory")]
    Memory,
}

impl From<AllocError> for TreeFault {
    ghost from_gives = { λ _ e. e ≡ Memory };

    fn from(_e: AllocError) -> TreeFault {
        TreeFault::Memory
    }
}
