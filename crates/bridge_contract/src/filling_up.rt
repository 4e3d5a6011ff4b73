//! A bridge's own nodes are filled from its leaves and its hole up.

ghost use Rattle.std.specs.Prelude.{◌≡◌, ℕ, ◌+◌, ◌<◌, ◌≤◌, Some, IfOk, map, slice_get};
ghost use Rattle.op_laws.specs.Laws.{IsElementOf};
ghost use Rattle.op_laws.specs.Trees.{size, sub_at, Each};
ghost use Rattle.op_laws.specs.TreeFolds.{fold_tree};
ghost use Rattle.m_bridges.specs.Places.{IsBridgeOf, part_at, own_place};
ghost use Rattle.bridge_contract.specs.OwnNodes.{own_subs, AreBelow, left_below, right_below};
ghost use Rattle.bridge_contract.specs.Stacked.{HeadTakes};
ghost use Rattle.bridge_contract.specs.Passing.{AreWeighed, over, CanMeet, CanStand, Stands};

use crate::contraction::taken;
use crate::head::Head;
use crate::own_nodes::own_head;
use bin_tree::Tree;
use m_bridges::Bridge;
use op_laws::{List, TreeOp, Tup};
use std::alloc::{AllocError, Global};

// The values below the hole with their weights.
#[inline(always)]
fn weighed<K: TreeOp>(
    _op: &K,
    tree: &Tree,
    bridge: &Bridge,
    below: Option<(K::V, K::V)>,
) -> Option<((K::V, u32), (K::V, u32))>
    requires bridge { IsBridgeOf tree.now.tree bridge.now }
    requires below { AreBelow (K.upward _op.now) tree.now.tree bridge.now.hole below }
    ensures { AreWeighed (K.upward _op.now) tree.now.tree bridge.now.hole result }
{
    // By this call it is known that the nodes are fewer than 2^32.
    let _nodes = tree.len();
    match (bridge.hole, below) {
        (Some(hole), Some((l, r))) => {
            let left = tree.size(hole + 1);
            let right = tree.size(hole + 1 + left);
            Some(((l, left), (r, right)))
        }
        _ => None,
    }
}

// A node's value from those of its children.
#[inline(always)]
fn meet<K: TreeOp>(op: &K, b: Tup, l: (K::V, u32), r: (K::V, u32)) -> (K::V, u32)
    requires takes { IsElementOf (K.takes op.now) b }
    requires can { CanMeet (K.upward op.now) (K.fits op.now) (K.fits_hole op.now) b l r }
    ensures { result ≡ over (K.upward op.now) b l r }
{
    (op.psi_n(l.0, l.1, op.phi(b), 1, r.0, r.1), l.1 + 1 + r.1)
}

// A node's value from those below the hole, where the node is that, or from those on the stack.
#[inline(always)]
fn stand<K: TreeOp>(
    op: &K,
    head: Head,
    below: Option<((K::V, u32), (K::V, u32))>,
    stack: &mut Vec<(K::V, u32)>,
) -> (K::V, u32)
    requires takes { HeadTakes (IsElementOf (K.takes op.now)) head }
    requires can { CanStand (K.upward op.now) (K.fits op.now) (K.fits_hole op.now) head below stack.old.items }
    ensures { Stands (K.upward op.now) head below stack.old.items stack.new.items result }
{
    match head {
        Head::AtEnd(a) => (op.leaf(a), 1),
        Head::AtStop(b) => match below {
            Some((l, r)) => meet(op, b, l, r),
            None => unreachable!(),
        },
        Head::AtJoin(b) => {
            let l = taken(stack);
            let r = taken(stack);
            meet(op, b, l, r)
        }
    }
}

/// The finished values of the subtrees at a bridge's own nodes, in preorder. `below` has the values
/// of the two subtrees of the hole, where there is one. It goes over the own nodes once, from the
/// last to the first, with a stack, and over no other node.
pub fn expand_up<K: TreeOp>(
    alloc: Global,
    op: &K,
    tree: &Tree,
    bridge: &Bridge,
    below: Option<(K::V, K::V)>,
) -> Result<List, AllocError>
    requires takes { K.takes op.now tree.now.ty }
    requires bridge { IsBridgeOf tree.now.tree bridge.now }
    requires below { AreBelow (K.upward op.now) tree.now.tree bridge.now.hole below }
    ensures ty { IfOk result (λ v. v.ty ≡ K.gives op.now tree.now.ty) }
    ensures items { IfOk result (λ v. v.items ≡ map (λ s. K.finished op.now (fold_tree (K.upward op.now) s))
        (own_subs (part_at tree.now.tree bridge.now) (left_below tree.now.tree bridge.now.hole) (right_below tree.now.tree bridge.now.hole))) }
    // by places: the entry number j is that of the subtree at the own place number j
    ensures each { IfOk result (λ v. (j : ℕ) → j < bridge.now.own
        → slice_get v.items j ≡ Some (K.finished op.now (fold_tree (K.upward op.now) (sub_at tree.now.tree (own_place tree.now.tree bridge.now j))))) }
{
    tree.admitted();
    let _nodes = tree.len();
    let below = weighed(op, tree, bridge, below);
    let mut stack: Vec<(K::V, u32)> = Vec::new(alloc);
    let mut out = List::new(alloc, op.result(tree.values().ty()));
    let mut k = bridge.own;
    while k > 0 {
        k -= 1;
        let head = own_head(tree, bridge, k);
        let value = stand(op, head, below, &mut stack);
        stack.push(value)?;
        out.push(op.finish(value.0, value.1))?;
    }
    out.reverse();
    Ok(out)
}
