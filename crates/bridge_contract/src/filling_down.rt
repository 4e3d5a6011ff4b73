//! A bridge's own nodes are filled from its root down.

ghost use Rattle.std.specs.Prelude.{◌≡◌, ℕ, ◌+◌, ◌*◌, ◌<◌, ◌≤◌, Some, IfOk, map, slice_get};
ghost use Rattle.op_laws.specs.Laws.{IsElementOf};
ghost use Rattle.m_bridges.specs.Places.{IsBridgeOf, part_at, own_place};
ghost use Rattle.bridge_contract.specs.Downs.{own_downs};
ghost use Rattle.bridge_contract.specs.DownsOf.{down_at};
ghost use Rattle.bridge_contract.specs.OwnNodes.{depth_at};
ghost use Rattle.bridge_contract.specs.Stacked.{HeadTakes};
ghost use Rattle.bridge_contract.specs.Passing.{CanPass, passed};

use crate::contraction::taken;
use crate::head::Head;
use crate::own_nodes::own_head;
use bin_tree::Tree;
use m_bridges::Bridge;
use op_laws::{DownOp, List};
use std::alloc::{AllocError, Global};

// Puts the values of a node's children on the stack, where they are own nodes.
#[inline(always)]
fn pass_on<D: DownOp>(
    op: &D,
    head: Head,
    top: (D::V, u32),
    stack: &mut Vec<(D::V, u32)>,
) -> Result<(), AllocError>
    requires takes { HeadTakes (IsElementOf (D.takes op.now)) head }
    requires can { CanPass (D.downward op.now) (D.fits op.now) (D.fits_way op.now) head top }
    ensures { IfOk result (λ _. stack.new.items ≡ passed (D.downward op.now) head top stack.old.items) }
{
    match head {
        Head::AtEnd(_) | Head::AtStop(_) => Ok(()),
        Head::AtJoin(b) => {
            let weight = top.1 + 2;
            let right = op.psi_d(top.0, top.1, op.phi_r(b), 2);
            let left = op.psi_d(top.0, top.1, op.phi_l(b), 2);
            stack.push((right, weight))?;
            stack.push((left, weight))?;
            Ok(())
        }
    }
}

/// The finished values at a bridge's own nodes in preorder, with `c` at its root. It goes over the
/// own nodes once, with a stack, and over no other node.
pub fn expand_down<D: DownOp>(
    alloc: Global,
    op: &D,
    tree: &Tree,
    bridge: &Bridge,
    c: D::V,
) -> Result<List, AllocError>
    requires takes { D.takes op.now tree.now.ty }
    requires bridge { IsBridgeOf tree.now.tree bridge.now }
    requires value { D.fits op.now c (1 + 2 * depth_at tree.now.tree bridge.now.root) }
    ensures ty { IfOk result (λ v. v.ty ≡ D.gives op.now tree.now.ty) }
    ensures items { IfOk result (λ v. v.items ≡ map (D.finished op.now) (own_downs (D.downward op.now) c (part_at tree.now.tree bridge.now))) }
    // by places: where c is the value that comes down to the root, the entry number j is the one that comes down to the own place number j
    ensures each { IfOk result (λ v. (top : D.V) → c ≡ down_at (D.downward op.now) top tree.now.tree bridge.now.root → (j : ℕ) → j < bridge.now.own
        → slice_get v.items j ≡ Some (D.finished op.now (down_at (D.downward op.now) top tree.now.tree (own_place tree.now.tree bridge.now j)))) }
{
    tree.admitted();
    let weight = tree.len() - tree.size(bridge.root) + 1;
    let mut stack: Vec<(D::V, u32)> = Vec::new(alloc);
    stack.push((c, weight))?;
    let mut out = List::new(alloc, op.result(tree.values().ty()));
    for k in 0..bridge.own {
        let head = own_head(tree, bridge, k);
        let top = taken(&mut stack);
        pass_on(op, head, top, &mut stack)?;
        out.push(op.finish(top.0, top.1))?;
    }
    Ok(out)
}
