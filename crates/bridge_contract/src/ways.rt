//! The ways from a bridge's root to the children of its hole.

ghost use Rattle.std.specs.Prelude.{◌≡◌, ◌⊎◌, ◌+◌, ◌≤◌, ◌<◌, false};
ghost use Rattle.op_laws.specs.Trees.{size, sub_at, is_leaf};
ghost use Rattle.m_bridges.specs.Places.{IsBridgeOf, part_at};
ghost use Rattle.bridge_contract.specs.Downs.{LeadsDown};
ghost use Rattle.bridge_contract.specs.Ways.{weight_of, FitsWay, onto, rest_at, LeadsOn};

use crate::down_summary::DownSummary;
use bin_tree::{Steps, Tree};
use m_bridges::Bridge;
use op_laws::{DownOp, MAX_ELEMENTS};
use std::sync::ledger::Ledger;

// The step from a node above the hole towards it, and the place of the child that it leads to.
#[inline(always)]
fn step_down<D: DownOp, L: Ledger>(
    op: &D,
    tree: &Tree,
    at: u32,
    hole: u32,
    steps: &mut Steps<L>,
) -> (D::D, u32)
    requires takes { D.takes op.now tree.now.ty }
    requires in_tree { at < size tree.now.tree }
    requires above { at < hole }
    requires within { hole < at + size (sub_at tree.now.tree at) }
    requires inner { is_leaf (sub_at tree.now.tree hole) ≡ false }
    ensures leads { LeadsOn (D.downward op.now) tree.now.tree at hole result.0 result.1 }
    ensures fit { D.fits_way op.now result.0 2 }
    ensures one_step { steps.new ≡ steps.old + 1 }
{
    let node = tree.node(at, steps);
    let left = tree.size(at + 1);
    if hole < at + 1 + left {
        (op.phi_l(node.value), at + 1)
    } else {
        (op.phi_r(node.value), at + 1 + left)
    }
}

// The way and one step more.
#[inline(always)]
fn onward<D: DownOp>(op: &D, way: Option<(D::D, u32)>, step: D::D) -> (D::D, u32)
    requires few { weight_of way + 2 ≤ MAX_ELEMENTS }
    requires way { FitsWay (D.fits_way op.now) way }
    requires step { D.fits_way op.now step 2 }
    ensures { result ≡ onto (D.downward op.now) way step }
{
    match way {
        None => (step, 2),
        Some(way) => (op.psi_u(way.0, way.1, step, 2), way.1 + 2),
    }
}

// The ways to the children of the hole.
fn both_ways<D: DownOp, L: Ledger>(
    op: &D,
    tree: &Tree,
    root: u32,
    hole: u32,
    steps: &mut Steps<L>,
) -> DownSummary<D::D>
    requires takes { D.takes op.now tree.now.ty }
    requires in_tree { root < size tree.now.tree }
    requires above { root ≤ hole }
    requires within { hole < root + size (sub_at tree.now.tree root) }
    requires inner { is_leaf (sub_at tree.now.tree hole) ≡ false }
    ensures leads { LeadsDown (D.downward op.now) (D.fits op.now) (D.fits_way op.now) (rest_at tree.now.tree root hole) result }
    ensures few_steps { steps.new + root ≤ steps.old + hole + 1 }
{
    // By this call it is known that the nodes are fewer than 2^32.
    let _size = tree.size(root);
    let mut at = root;
    let mut way: Option<(D::D, u32)> = None;
    while at < hole {
        let (step, next) = step_down(op, tree, at, hole, steps);
        way = Some(onward(op, way, step));
        at = next;
    }
    let value = tree.node(at, steps).value;
    let l = onward(op, way, op.phi_l(value));
    let r = onward(op, way, op.phi_r(value));
    DownSummary::Both {
        l: l.0,
        r: r.0,
        n: l.1,
    }
}

/// What a bridge passes down, from its own nodes alone: nothing, where it has no hole; else the ways
/// from its root to the left and to the right child of its hole. It goes over the path to the hole
/// once and takes no memory.
pub fn contract_down<D: DownOp, L: Ledger>(
    op: &D,
    tree: &Tree,
    bridge: &Bridge,
    steps: &mut Steps<L>,
) -> DownSummary<D::D>
    requires takes { D.takes op.now tree.now.ty }
    requires bridge { IsBridgeOf tree.now.tree bridge.now }
    ensures leads { LeadsDown (D.downward op.now) (D.fits op.now) (D.fits_way op.now) (part_at tree.now.tree bridge.now) result }
    ensures few_steps { steps.new ≤ steps.old + bridge.now.own }
{
    match bridge.hole {
        None => DownSummary::End,
        Some(hole) => both_ways(op, tree, bridge.root, hole, steps),
    }
}
