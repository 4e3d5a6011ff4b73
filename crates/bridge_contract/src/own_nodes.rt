//! A bridge's own nodes by their numbers. These looks at nodes are no steps.

ghost use Rattle.std.specs.Prelude.{◌≡◌, ◌+◌, ◌-◌, ◌<◌, ◌≤◌};
ghost use Rattle.op_laws.specs.Trees.{size, sub_at};
ghost use Rattle.m_bridges.specs.Places.{IsBridgeOf, part_at};
ghost use Rattle.bridge_contract.specs.Pending.{tree_head, head_at, beside};

use crate::head::Head;
use bin_tree::Tree;
use m_bridges::Bridge;

// The node at a place.
#[inline(always)]
fn head_of(tree: &Tree, i: u32) -> Head
    requires { i < size tree.now.tree }
    ensures { result ≡ tree_head (sub_at tree.now.tree i) }
{
    if tree.is_leaf(i) {
        Head::AtEnd(tree.value(i))
    } else {
        Head::AtJoin(tree.value(i))
    }
}

// The k-th own node of a bridge.
#[inline(always)]
pub(crate) fn own_head(tree: &Tree, bridge: &Bridge, k: u32) -> Head
    requires bridge { IsBridgeOf tree.now.tree bridge.now }
    requires within { k < bridge.now.own }
    ensures { result ≡ head_at (part_at tree.now.tree bridge.now) k }
{
    let _len = tree.len();
    let at = bridge.root + k;
    match bridge.hole {
        None => head_of(tree, at),
        Some(hole) => head_beside(tree, at, hole),
    }
}

// The own node that stands so far from the root, where there is a hole.
#[inline(always)]
fn head_beside(tree: &Tree, at: u32, hole: u32) -> Head
    requires hole_within { hole < size tree.now.tree }
    requires before { at ≤ hole → at < size tree.now.tree }
    requires after { hole < at → at + (size (sub_at tree.now.tree hole) - 1) < size tree.now.tree }
    ensures { result ≡ beside tree.now.tree at hole }
{
    if at < hole {
        return head_of(tree, at);
    }
    if at == hole {
        return Head::AtStop(tree.value(at));
    }
    head_of(tree, at + (tree.size(hole) - 1))
}
