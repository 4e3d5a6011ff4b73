//! Trees of the tests.

ghost use Rattle.std.specs.Prelude.{◌≡◌, ◌<◌, ◌≤◌, Some, length, slice_get};
ghost use Rattle.m_bridges.specs.Bridges.{bridges};
ghost use Rattle.m_bridges.specs.Places.{IsBridgeOf};

use bin_tree::Tree;
use m_bridges::Bridge;
use op_laws::{List, MAX_ELEMENTS, Tup};
use std::alloc::{AllocError, Global};
use std::process::Abort;
use std::test::Fail;

/// Trees by the marks and values of their nodes in preorder. By 4 the second one has a bridge whose
/// hole is a left child, and the third one whose hole is a right child.
pub(crate) const TREES: [&str; 4] = [
    "N 1 L 2 N 3 L 4 L 5",
    "N 1 N 2 N 3 L 4 L 5 L 6 L 7",
    "N -3 L 5 N 4 L -2 N 0 L 7 L -9",
    "N 1 L 0 N 1 L 0 L 0",
];

/// The tree of a text.
pub(crate) fn tree_of(rt: &impl Abort, alloc: Global, text: &str) -> Result<Tree, Fail> {
    let mut leaf = Vec::new(alloc);
    let mut values = Vec::new(alloc);
    for word in text.split(' ') {
        match word {
            "N" => leaf.push(false)?,
            "L" => leaf.push(true)?,
            _ => values.push(word.parse::<i64>()?)?,
        }
    }
    assert!(rt; leaf.len() == values.len());
    assert!(rt; values.len() < 100);
    Ok(Tree::from_marks(alloc, leaf, List::of_w64(values))?)
}

/// The numbers of a text.
pub(crate) fn numbers_of(alloc: Global, text: &str) -> Result<Vec<i128>, Fail> {
    let mut numbers = Vec::new(alloc);
    for word in text.split(' ') {
        numbers.push(word.parse::<i128>()?)?;
    }
    Ok(numbers)
}

/// The place of a bridge's k-th own node.
pub(crate) fn place_of(rt: &impl Abort, tree: &Tree, bridge: &Bridge, k: u32) -> usize {
    let at = bridge.root as usize + k as usize;
    match bridge.hole {
        Some(hole) if at > hole as usize => {
            assert!(rt; hole < tree.len());
            at + tree.size(hole) as usize - 1
        }
        _ => at,
    }
}

/// Compares the results at a bridge's own nodes with those of all places.
pub(crate) fn assert_own(
    rt: &impl Abort,
    tree: &Tree,
    bridge: &Bridge,
    filled: &List,
    wanted: &[i128],
) {
    assert_eq!(rt; filled.len(), bridge.own, "the own nodes of {bridge:?}");
    for k in 0..filled.len() {
        let place = place_of(rt, tree, bridge, k);
        assert!(rt; place < wanted.len());
        assert_eq!(rt;
            filled.at(k),
            Tup::one(wanted[place]),
            "place {place} of {bridge:?}"
        );
    }
}

/// A bridge of a tree's cut.
pub(crate) fn bridge_of(_tree: &Tree, _m: u32, cut: &[Bridge], i: usize) -> Bridge
    requires some { 1 ≤ _m }
    requires within { i < length cut.now }
    requires cut { cut.now ≡ bridges _m 0 _tree.now.tree }
    ensures same { slice_get cut.now i ≡ Some result }
    ensures bridge { IsBridgeOf _tree.now.tree result }
{
    bridge_in(cut, i)
}

fn bridge_in(cut: &[Bridge], i: usize) -> Bridge
    requires { i < length cut.now }
    ensures { slice_get cut.now i ≡ Some result }
{
    cut[i]
}

/// A tree of so many nodes, an odd number: a left chain, or one with as many nodes on the left as on
/// the right of each node, or two fewer. Each value is 1.
pub(crate) fn large_tree(
    rt: &impl Abort,
    alloc: Global,
    nodes: u32,
    chain: bool,
) -> Result<Tree, Fail> {
    let leaf = large_marks(alloc, nodes, chain)?;
    let values = vec![in alloc; 1i64; leaf.len()]?;
    assert!(rt; values.len() <= MAX_ELEMENTS as usize);
    Ok(Tree::from_marks(alloc, leaf, List::of_w64(values))?)
}

// Its marks: what is left to do is a stack of numbers of inner nodes.
fn large_marks(alloc: Global, nodes: u32, chain: bool) -> Result<Vec<bool>, AllocError> {
    let mut todo = Vec::new(alloc);
    let mut leaf = Vec::new(alloc);
    todo.push(nodes / 2)?;
    for _ in 0..nodes {
        let Some(inner) = todo.pop() else {
            break;
        };
        leaf.push(inner == 0)?;
        if inner > 0 {
            let below: u32 = inner - 1;
            let right = if chain { 0 } else { below.div_ceil(2) };
            todo.push(right)?;
            todo.push(below - right)?;
        }
    }
    Ok(leaf)
}
