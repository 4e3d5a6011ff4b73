//! Why a function has no type.

ghost use Rattle.std.specs.Prelude.{◌≡◌};
ghost use Rattle.scalar_expr.specs.declared.fault.TypeFault.TheVariants.{Memory};

use std::alloc::AllocError;
use thiserror::Error;

/// Why a function has no type on elements of some type. The number is the place of the node in
/// postorder, counted from 0 over the whole function: parts in written order, then the node.
#[derive(Clone, Copy, Debug, PartialEq, Eq, Error)]
pub enum TypeFault {
    /// The element doesn't have the component.
    #[error("node {0} names a component that the element doesn't have")]
    NoPart(u32),
    /// A sum or a difference of numbers of w128, or bits of numbers wider than w64.
    #[error("node {0} is too wide")]
    TooWide(u32),
    /// The node's own depth is over 30.
    #[error("node {0} is too deep")]
    TooDeep(u32),
    /// Want of memory.
    #[error("out of memory")]
    Memory,
}

impl From<AllocError> for TypeFault {
    ghost from_gives = { λ _ e. e ≡ Memory };

    fn from(_e: AllocError) -> TypeFault {
        TypeFault::Memory
    }
}
