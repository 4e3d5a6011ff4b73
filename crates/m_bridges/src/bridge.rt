//! Bridges by places.

ghost use Rattle.std.specs.Prelude.{◌≡◌, ◌<◌, ◌^◌, Some, length, slice_get};

use std::marker::Model;

/// A part of a tree, by places in preorder. It runs from its root to leaves, or down to one
/// critical node, its hole, which it owns. With the root r and the hole c it owns the places r to c
/// and c + size c to r + size r - 1, and without a hole all places of the root's subtree.
#[derive(Clone, Copy, Debug, PartialEq, Eq)]
pub struct Bridge {
    pub root: u32,
    pub hole: Option<u32>,
    /// How many nodes it owns.
    pub own: u32,
}

/// The bridges of a tree, in preorder of their roots.
#[derive(Drop, Debug)]
pub struct Bridges {
    pub(crate) list: Vec<Bridge>,
}

impl Model for Bridges {
    ghost use Rattle.std.specs.Prelude.{List, length, ◌<◌, ◌^◌};
    ghost use Rattle.m_bridges.specs.declared.bridge.Bridge.{Bridge};

    ghost Value = { List Bridge };

    ghost view = { λ b. b.list.items };

    ghost invariant = { λ b. length b.list.items < 2 ^ 32 };
}

impl Bridges {
    /// How many there are.
    #[inline(always)]
    pub fn len(&self) -> u32
        ensures { result ≡ length self.now }
    {
        self.list.len() as u32
    }

    /// The bridge number `i`, from 0 on.
    #[inline(always)]
    pub fn at(&self, i: u32) -> Bridge
        requires { i < length self.now }
        ensures { slice_get self.now i ≡ Some result }
    {
        self.list[i as usize]
    }

    /// All of them.
    #[inline(always)]
    pub fn as_slice(&self) -> &[Bridge]
        ensures { result.now ≡ self.now }
    {
        &self.list
    }
}
