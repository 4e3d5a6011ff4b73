//! A bridge is contracted to one value.

ghost use Rattle.std.specs.Prelude.{◌≡◌, ℕ, ◌+◌, ◌-◌, ◌<◌, ◌≤◌, ◌^◌, ℤ, None, IfOk, length, ◌++◌, ◌∷◌, []};
ghost use Rattle.op_laws.specs.Laws.{IsElementOf};
ghost use Rattle.op_laws.specs.Trees.{size, sub_at, Each};
ghost use Rattle.op_laws.specs.TreeFolds.{fold_tree};
ghost use Rattle.m_bridges.specs.Parts.{own};
ghost use Rattle.m_bridges.specs.Places.{IsBridgeOf, part_at};
ghost use Rattle.bridge_contract.specs.Summaries.{joined, Sums};
ghost use Rattle.bridge_contract.specs.declared.summary.Summary.TheVariants.{Value};
ghost use Rattle.bridge_contract.specs.Pending.{tree_head, head_at, beside};
ghost use Rattle.bridge_contract.specs.Stacked.{Joinable, HeadTakes, IsReady, Fronted};

use crate::head::Head;
use crate::summary::Summary;
use bin_tree::{Steps, Tree};
use m_bridges::Bridge;
use op_laws::{TreeOp, Tup};
use std::alloc::{AllocError, Global};
use std::sync::ledger::Ledger;

// The node at a place. It is one step.
#[inline(always)]
fn tree_node<L: Ledger>(tree: &Tree, i: u32, steps: &mut Steps<L>) -> Head
    requires { i < size tree.now.tree }
    ensures head { result ≡ tree_head (sub_at tree.now.tree i) }
    ensures one_step { steps.new ≡ steps.old + 1 }
{
    let node = tree.node(i, steps);
    if node.leaf {
        Head::AtEnd(node.value)
    } else {
        Head::AtJoin(node.value)
    }
}

// The k-th own node of a bridge. It is one step.
#[inline(always)]
fn own_node<L: Ledger>(tree: &Tree, bridge: &Bridge, k: u32, steps: &mut Steps<L>) -> Head
    requires bridge { IsBridgeOf tree.now.tree bridge.now }
    requires within { k < bridge.now.own }
    ensures head { result ≡ head_at (part_at tree.now.tree bridge.now) k }
    ensures one_step { steps.new ≡ steps.old + 1 }
{
    let _len = tree.len();
    let at = bridge.root + k;
    match bridge.hole {
        None => tree_node(tree, at, steps),
        Some(hole) => beside_hole(tree, at, hole, steps),
    }
}

// The own node that stands so far from the root, where there is a hole. It is one step.
#[inline(always)]
fn beside_hole<L: Ledger>(tree: &Tree, at: u32, hole: u32, steps: &mut Steps<L>) -> Head
    requires hole_within { hole < size tree.now.tree }
    requires before { at ≤ hole → at < size tree.now.tree }
    requires after { hole < at → at + (size (sub_at tree.now.tree hole) - 1) < size tree.now.tree }
    ensures head { result ≡ beside tree.now.tree at hole }
    ensures one_step { steps.new ≡ steps.old + 1 }
{
    if at < hole {
        return tree_node(tree, at, steps);
    }
    if at == hole {
        return Head::AtStop(tree.node(at, steps).value);
    }
    tree_node(tree, at + (tree.size(hole) - 1), steps)
}

// Two summaries below a node.
#[inline(always)]
fn join<K: TreeOp>(
    op: &K,
    b: Tup,
    l: Summary<K::V, K::G>,
    r: Summary<K::V, K::G>,
) -> Summary<K::V, K::G>
    requires takes { IsElementOf (K.takes op.now) b }
    requires phi { K.fits_hole op.now ((K.upward op.now).phi b) 1 }
    requires both { Joinable (K.fits op.now) (K.fits_hole op.now) l r }
    ensures { result ≡ joined (K.upward op.now) b l r }
{
    let g = op.phi(b);
    match (l, r) {
        (Summary::Value { v: l, n: nl }, Summary::Value { v: r, n: nr }) => Summary::Value {
            v: op.psi_n(l, nl, g, 1, r, nr),
            n: nl + 1 + nr,
        },
        (Summary::Hole { g: h, n: nh }, Summary::Value { v: r, n: nr }) => Summary::Hole {
            g: op.psi_l(h, nh, g, 1, r, nr),
            n: nh + 1 + nr,
        },
        (Summary::Value { v: l, n: nl }, Summary::Hole { g: h, n: nh }) => Summary::Hole {
            g: op.psi_r(l, nl, g, 1, h, nh),
            n: nl + 1 + nh,
        },
        (Summary::Hole { g, n }, Summary::Hole { .. }) => Summary::Hole { g, n },
    }
}

// The last one.
#[inline(always)]
pub(crate) fn taken<T: Copy>(stack: &mut Vec<T>) -> T
    requires { 0 < length stack.old.items }
    ensures { stack.old.items ≡ stack.new.items ++ result ∷ [] }
{
    match stack.pop() {
        Some(item) => item,
        None => unreachable!(),
    }
}

// The summary of a node and of those that it takes from the stack.
#[inline(always)]
fn fronted<K: TreeOp>(
    op: &K,
    head: Head,
    stack: &mut Vec<Summary<K::V, K::G>>,
) -> Summary<K::V, K::G>
    requires takes { HeadTakes (IsElementOf (K.takes op.now)) head }
    requires ready { IsReady (K.upward op.now) (K.fits op.now) (K.fits_hole op.now) head stack.old.items }
    ensures { Fronted (K.upward op.now) head stack.old.items stack.new.items result }
{
    match head {
        Head::AtEnd(a) => Summary::Value {
            v: op.leaf(a),
            n: 1,
        },
        Head::AtStop(b) => Summary::Hole { g: op.phi(b), n: 1 },
        Head::AtJoin(b) => {
            let l = taken(stack);
            let r = taken(stack);
            join(op, b, l, r)
        }
    }
}

/// What a bridge passes up, from its own nodes alone: the value of its subtree, where it has no
/// hole; else a node g, such that the bridge with any two trees x and y below its hole has the
/// value `psi_n` of x's value, g and y's. It goes over the own nodes once, from the last to the
/// first, with a stack.
pub fn contract<K: TreeOp, L: Ledger>(
    alloc: Global,
    op: &K,
    tree: &Tree,
    bridge: &Bridge,
    steps: &mut Steps<L>,
) -> Result<Summary<K::V, K::G>, AllocError>
    requires takes { K.takes op.now tree.now.ty }
    requires bridge { IsBridgeOf tree.now.tree bridge.now }
    ensures sums { IfOk result (Sums (K.upward op.now) (IsElementOf (K.takes op.now)) (K.fits op.now) (K.fits_hole op.now) (part_at tree.now.tree bridge.now)) }
    // without a hole it is the fold of the subtree at the root
    ensures whole { bridge.now.hole ≡ None → IfOk result (λ s. s ≡ Value (fold_tree (K.upward op.now) (sub_at tree.now.tree bridge.now.root)) bridge.now.own) }
    ensures few_steps { steps.new ≤ steps.old + bridge.now.own }
{
    tree.admitted();
    let mut stack: Vec<Summary<K::V, K::G>> = Vec::new(alloc);
    let mut k = bridge.own;
    while k > 0 {
        k -= 1;
        let head = own_node(tree, bridge, k, steps);
        let summary = fronted(op, head, &mut stack);
        stack.push(summary)?;
    }
    Ok(taken(&mut stack))
}
