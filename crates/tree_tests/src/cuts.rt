//! What no clause of `m_bridges` says: that a tree is cut where there is memory, and which bridges
//! trees have, worked out by hand from the definition or by its count of critical nodes.

ghost use Rattle.std.specs.Prelude.{◌≡◌, ◌≤◌};

use crate::trees::{large_tree, place_of, tree_of};
use bin_tree::Tree;
use m_bridges::{Bridge, critical, split};
use std::alloc::{AllocError, Global};
use std::process::Abort;
use std::test::Fail;

// Trees, and their bridges by m: root, hole or none, own nodes.
const ROWS: &str = "\
N 1 L 2 N 3 L 4 L 5 by 3 => 0 0 1, 1 - 1, 2 - 3
N 1 L 2 N 3 L 4 L 5 by 2 => 0 0 1, 1 - 1, 2 2 1, 3 - 1, 4 - 1
N 1 L 2 N 3 L 4 L 5 by 1 => 0 0 1, 1 - 1, 2 2 1, 3 - 1, 4 - 1
N 1 L 2 N 3 L 4 L 5 by 5 => 0 - 5
N 1 N 2 N 3 L 4 L 5 L 6 L 7 by 4 => 0 1 3, 2 - 3, 5 - 1
N 1 L 7 N 2 L 6 N 3 L 4 L 5 by 4 => 0 2 3, 3 - 1, 4 - 3
N 1 N 2 N 3 L 4 L 5 L 6 L 7 by 4294967295 => 0 - 7
L 1 by 1 => 0 - 1";

// The text of bridges, as in the table.
fn told(alloc: Global, cut: &[Bridge]) -> Result<String, AllocError> {
    let mut text = String::new(alloc);
    for bridge in cut {
        if !text.is_empty() {
            text.push_str(", ")?;
        }
        let one = match bridge.hole {
            Some(hole) => format!(in alloc; "{} {hole} {}", bridge.root, bridge.own)?,
            None => format!(in alloc; "{} - {}", bridge.root, bridge.own)?,
        };
        text.push_str(one.as_str())?;
    }
    Ok(text)
}

// The bridges of a row are those of its tree.
fn assert_row(rt: &impl Abort, alloc: Global, row: &str) -> Result<(), Fail> {
    let (case, wanted) = row.split_once(" => ").expect(rt, "a tree and its bridges");
    let (text, m) = case.split_once(" by ").expect(rt, "a tree and m");
    let tree = tree_of(rt, alloc, text)?;
    let m = m.parse::<u32>()?;
    assert!(rt; m > 0);
    let bridges = split(alloc, &tree, m)?;
    assert_eq!(rt; told(alloc, bridges.as_slice())?.as_str(), wanted, "{case}");
    Ok(())
}

#[test]
fn small_trees_have_these_bridges(rt: HostRuntime) -> Result<(), Fail> {
    for row in ROWS.lines() {
        assert_row(&rt, rt.alloc(), row)?;
    }
    Ok(())
}

// The bridges, one after another, close the preorder of a full binary tree, whose leaves are those
// without a hole.
fn assert_full(rt: &impl Abort, cut: &[Bridge]) {
    let mut open: u64 = 1;
    for bridge in cut {
        assert!(rt; open > 0, "before {bridge:?}");
        open = match bridge.hole {
            Some(_) => open.saturating_add(1),
            None => open - 1,
        };
    }
    assert_eq!(rt; open, 0);
}

// Writes a bridge's number at each place that it owns, which no other owns.
fn mark(
    rt: &impl Abort,
    tree: &Tree,
    number: usize,
    bridge: &Bridge,
    owners: &mut [Option<usize>],
) {
    for k in 0..bridge.own {
        let place = place_of(rt, tree, bridge, k);
        assert!(rt; place < owners.len());
        assert_eq!(rt; owners[place], None, "of {bridge:?}");
        owners[place] = Some(number);
    }
}

// The children of the node at a place have the node's owner, or the node is critical and the hole of
// its owner, and they are roots of two others.
fn assert_children(
    rt: &impl Abort,
    tree: &Tree,
    m: u32,
    at: u32,
    cut: &[Bridge],
    owners: &[Option<usize>],
)
    requires { 1 ≤ m }
{
    assert!(rt; at < tree.len() - 1);
    let left = at + 1;
    let right = left + tree.size(left);
    let (own, l, r) = (
        owner(rt, owners, at),
        owner(rt, owners, left),
        owner(rt, owners, right),
    );
    assert!(rt; own < cut.len() && l < cut.len() && r < cut.len());
    if critical(tree, m, at) {
        assert_eq!(rt; cut[own].hole, Some(at));
        assert_eq!(rt; (cut[l].root, cut[r].root), (left, right), "below {at}");
    } else {
        assert_eq!(rt; (l, r), (own, own), "below {at}");
        assert!(rt; cut[own].hole != Some(at));
    }
}

fn owner(rt: &impl Abort, owners: &[Option<usize>], place: u32) -> usize {
    assert!(rt; (place as usize) < owners.len());
    owners[place as usize].expect(rt, "an owner")
}

// So many bridges, of which each owns at most m nodes, and each node has one owner.
fn audit(rt: &impl Abort, alloc: Global, tree: &Tree, m: u32, count: u32) -> Result<(), Fail>
    requires { 1 ≤ m }
{
    let bridges = split(alloc, tree, m)?;
    let cut = bridges.as_slice();
    assert_eq!(rt; bridges.len(), count);
    assert_full(rt, cut);
    let mut owners = vec![in alloc; None; tree.len() as usize]?;
    for (number, bridge) in cut.iter().enumerate() {
        assert!(rt; bridge.own <= m, "{bridge:?}");
        mark(rt, tree, number, bridge, &mut owners);
    }
    for at in 0..tree.len() {
        if tree.size(at) > 1 {
            assert_children(rt, tree, m, at, cut, &owners);
        } else {
            assert!(rt; owners[at as usize].is_some(), "{at}");
        }
    }
    Ok(())
}

#[test]
fn a_left_chain_is_cut_into_whole_bridges(rt: HostRuntime) -> Result<(), Fail> {
    let tree = large_tree(&rt, rt.alloc(), 200_001, true)?;
    audit(&rt, rt.alloc(), &tree, 7, 57_143)
}

#[test]
fn a_balanced_tree_is_cut_into_whole_bridges(rt: HostRuntime) -> Result<(), Fail> {
    let tree = large_tree(&rt, rt.alloc(), 200_001, false)?;
    audit(&rt, rt.alloc(), &tree, 7, 65_535)
}
