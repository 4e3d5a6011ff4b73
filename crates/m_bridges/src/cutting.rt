//! Critical nodes, and the cut at them.

ghost use Rattle.std.specs.List.{All};
ghost use Rattle.std.specs.Prelude.{◌≡◌, ℕ, ◌+◌, ◌-◌, ◌*◌, ◌/◌, ◌<◌, ◌≤◌, ◌^◌, ◌↔◌, IsTrue, length, IfOk, cond, nat_lt, ◌&&◌, ◌∷◌, ◌++◌};
ghost use Rattle.op_laws.specs.Trees.{BTree, size, sub_at};
ghost use Rattle.m_bridges.specs.Parts.{is_critical, IsCritical};
ghost use Rattle.m_bridges.specs.Bridges.{bridges, with_node_above, AreFew, IsFull, RootsAscend};
ghost use Rattle.m_bridges.specs.Places.{IsBridgeOf, IsOwnedOnce};
ghost use Rattle.m_bridges.specs.Paths.{AreBridgesByPaths};
ghost use Rattle.m_bridges.specs.Next.{AreNext, IsNext};

use crate::bridge::{Bridge, Bridges};
use bin_tree::Tree;
use std::alloc::{AllocError, Global};

// The least number of blocks of at most m for n nodes.
#[inline(always)]
fn blocks(n: u32, m: u32) -> u64
    requires { 1 ≤ m }
    ensures { result ≡ (n + (m - 1)) / m }
{
    (n as u64 + (m as u64 - 1)) / m as u64
}

// Whether both children need fewer blocks.
#[inline(always)]
fn both_fewer(n: u32, l: u32, m: u32) -> bool
    requires some { 1 ≤ m }
    requires within { l + 1 ≤ n }
    ensures { result ≡ (nat_lt ((l + (m - 1)) / m) ((n + (m - 1)) / m) && nat_lt ((n - 1 - l + (m - 1)) / m) ((n + (m - 1)) / m)) }
{
    let k = blocks(n, m);
    (blocks(l, m) < k) & (blocks(n - 1 - l, m) < k)
}

/// Whether the node at place `i` is m-critical: an inner node of whose subtree the size, divided by
/// m and rounded up, is greater than that of both children. Over a subtree of at most m nodes nothing
/// is divided.
pub fn critical(tree: &Tree, m: u32, i: u32) -> bool
    requires some { 1 ≤ m }
    requires within { i < size tree.now.tree }
    ensures value { result ≡ is_critical m (sub_at tree.now.tree i) }
    ensures meaning { IsTrue result ↔ IsCritical m (sub_at tree.now.tree i) }
{
    let n = tree.size(i);
    if n <= m {
        return false;
    }
    both_fewer(n, tree.size(i + 1), m)
}

// The place itself where it is found, else the last one.
#[inline(always)]
fn nearer(found: bool, i: u32, last: u32) -> u32
    ensures { result ≡ cond found i last }
{
    if found { i } else { last }
}

// For each place the first critical one from there on, or the number of places.
fn fill_next(tree: &Tree, m: u32, next: &mut [u32])
    requires some { 1 ≤ m }
    requires same { length next.old ≡ size tree.now.tree }
    ensures { AreNext m tree.now.tree 0 next.new }
{
    let mut last = tree.len();
    let mut i = last;
    while i > 0 {
        i -= 1;
        last = nearer(critical(tree, m, i), i, last);
        next[i as usize] = last;
    }
}

fn next_critical(alloc: Global, tree: &Tree, m: u32) -> Result<Vec<u32>, AllocError>
    requires { 1 ≤ m }
    ensures { IfOk result (λ v. AreNext m tree.now.tree 0 v.items) }
{
    let n = tree.len();
    let mut next = vec![in alloc; 0u32; n as usize]?;
    fill_next(tree, m, &mut next);
    Ok(next)
}

// The bridge of a root whose hole is at a place, and the roots below that.
#[inline(always)]
fn with_hole(tree: &Tree, _m: u32, root: u32, at: u32) -> (Bridge, u32, u32)
    requires some { 1 ≤ _m }
    requires within { root < size tree.now.tree }
    requires next { IsNext _m tree.now.tree root at }
    requires found { at - root < size (sub_at tree.now.tree root) }
    ensures first { bridges _m root (sub_at tree.now.tree root) ≡ result.0 ∷ (bridges _m result.1 (sub_at tree.now.tree result.1) ++ bridges _m result.2 (sub_at tree.now.tree result.2)) }
    ensures left { result.1 < size tree.now.tree }
    ensures right { result.2 < size tree.now.tree }
{
    let size = tree.size(root);
    let below = tree.size(at) - 1;
    let left = at + 1;
    let right = left + tree.size(left);
    let bridge = Bridge {
        root,
        hole: Some(at),
        own: size - below,
    };
    (bridge, left, right)
}

// The bridges, found root by root: what is left to do is a stack of roots.
fn find_bridges(alloc: Global, tree: &Tree, m: u32) -> Result<Vec<Bridge>, AllocError>
    requires { 1 ≤ m }
    ensures { IfOk result (λ v. v.items ≡ bridges m 0 tree.now.tree) }
{
    let next = next_critical(alloc, tree, m)?;
    let mut todo: Vec<u32> = Vec::new(alloc);
    todo.push(0)?;
    let mut out = Vec::new(alloc);
    while let Some(root) = todo.pop() {
        let own = tree.size(root);
        let at = next[root as usize];
        if at - root >= own {
            let hole = None;
            out.push(Bridge { root, hole, own })?;
            continue;
        }
        let (bridge, left, right) = with_hole(tree, m, root, at);
        out.push(bridge)?;
        todo.push(right)?;
        todo.push(left)?;
    }
    Ok(out)
}

/// The bridges of a tree, in preorder of their roots, in time and memory in proportion to its
/// nodes. A bridge owns at most m nodes. There is one where the tree has at most m nodes, and there
/// are at most 4⌈n/m⌉ - 5 where it has n of them and that is more.
pub fn split(alloc: Global, tree: &Tree, m: u32) -> Result<Bridges, AllocError>
    requires { 1 ≤ m }
    ensures value { IfOk result (λ v. v ≡ bridges m 0 tree.now.tree) }
    // the places of each bridge make one
    ensures places { IfOk result (λ v. All (IsBridgeOf tree.now.tree) v) }
    ensures own { IfOk result (λ v. All (λ b. b.own ≤ m) v) }
    ensures few { IfOk result (λ v. AreFew (size tree.now.tree) m (length v)) }
    ensures above { IfOk result (λ v. All (λ b. with_node_above b ≤ m + 1) v) }
    // they are the preorder of a binary tree, in which the two below a bridge stand at its hole's children
    ensures full { IfOk result (IsFull tree.now.tree) }
    ensures ascend { IfOk result RootsAscend }
    ensures paths { IfOk result (AreBridgesByPaths m tree.now.tree) }
    ensures once { IfOk result (λ v. (i : ℕ) → i < size tree.now.tree → IsOwnedOnce tree.now.tree v i) }
{
    // By this call it is known that there are fewer than 2^32 nodes.
    let _nodes = tree.len();
    let list = find_bridges(alloc, tree, m)?;
    Ok(Bridges { list })
}
