//! Trees folded by one part from each of their bridges.

ghost use Rattle.std.specs.Prelude.{◌≡◌, ◌+◌, ◌≤◌, ◌<◌, Some, IfOk, IfSome, length, slice_get};
ghost use Rattle.op_laws.specs.Laws.{IsElementOf};
ghost use Rattle.op_laws.specs.Trees.{size, sub_at};
ghost use Rattle.op_laws.specs.TreeFolds.{fold_tree};
ghost use Rattle.m_bridges.specs.Bridges.{bridges};
ghost use Rattle.m_bridges.specs.Places.{IsBridgeOf, part_at};
ghost use Rattle.bridge_contract.specs.Summaries.{Sums};
ghost use Rattle.bridge_contract.specs.SumsOf.{SumsOf};
ghost use Rattle.bridge_contract.specs.OwnNodes.{AreBelow};
ghost use Rattle.bridge_contract.specs.AtRoots.{AreFolds, ArePairs};

use crate::trees::bridge_of;
use bin_tree::{Steps, Tree};
use bridge_contract::{Summary, contract, join_below, join_up, summaries_join};
use m_bridges::Bridge;
use op_laws::{MAX_ELEMENTS, TreeOp, Tup};
use std::alloc::{AllocError, Global};
use std::sync::ledger::Ledger;

/// What each bridge passes up.
pub(crate) fn contracted<K: TreeOp, L: Ledger>(
    alloc: Global,
    op: &K,
    tree: &Tree,
    _m: u32,
    cut: &[Bridge],
    steps: &mut Steps<L>,
) -> Result<Vec<Summary<K::V, K::G>>, AllocError>
    requires some { 1 ≤ _m }
    requires takes { K.takes op.now tree.now.ty }
    requires cut { cut.now ≡ bridges _m 0 tree.now.tree }
    ensures { IfOk result (λ v. SumsOf (K.upward op.now) (IsElementOf (K.takes op.now)) (K.fits op.now) (K.fits_hole op.now) tree.now.tree cut.now v.items) }
{
    let mut parts = Vec::new(alloc);
    for bridge in cut {
        parts.push(contract(alloc, op, tree, bridge, steps)?)?;
    }
    Ok(parts)
}

/// The value at each bridge's root, from these parts.
pub(crate) fn joined<K: TreeOp>(
    alloc: Global,
    op: &K,
    tree: &Tree,
    _m: u32,
    _cut: &[Bridge],
    parts: &[Summary<K::V, K::G>],
) -> Result<Vec<K::V>, AllocError>
    requires some { 1 ≤ _m }
    requires takes { K.takes op.now tree.now.ty }
    requires cut { _cut.now ≡ bridges _m 0 tree.now.tree }
    requires parts { SumsOf (K.upward op.now) (IsElementOf (K.takes op.now)) (K.fits op.now) (K.fits_hole op.now) tree.now.tree _cut.now parts.now }
    ensures { IfOk result (λ v. AreFolds (K.upward op.now) tree.now.tree _cut.now v.items) }
{
    tree.admitted();
    let _nodes = tree.len();
    let values = join_up(alloc, op, parts)?;
    Ok(values)
}

/// A bridge with the value at its root.
pub(crate) fn bridge_up<K: TreeOp>(
    _op: &K,
    tree: &Tree,
    m: u32,
    cut: &[Bridge],
    values: &[K::V],
    i: usize,
) -> (Bridge, K::V)
    requires some { 1 ≤ m }
    requires within { i < length cut.now }
    requires cut { cut.now ≡ bridges m 0 tree.now.tree }
    requires values { AreFolds (K.upward _op.now) tree.now.tree cut.now values.now }
    ensures bridge { IsBridgeOf tree.now.tree result.0 }
    ensures value { result.1 ≡ fold_tree (K.upward _op.now) (sub_at tree.now.tree result.0.root) }
{
    (bridge_of(tree, m, cut, i), values[i])
}

/// The values below each bridge's hole, from these parts.
pub(crate) fn pairs<K: TreeOp>(
    alloc: Global,
    op: &K,
    tree: &Tree,
    _m: u32,
    _cut: &[Bridge],
    parts: &[Summary<K::V, K::G>],
) -> Result<Vec<Option<(K::V, K::V)>>, AllocError>
    requires some { 1 ≤ _m }
    requires takes { K.takes op.now tree.now.ty }
    requires cut { _cut.now ≡ bridges _m 0 tree.now.tree }
    requires parts { SumsOf (K.upward op.now) (IsElementOf (K.takes op.now)) (K.fits op.now) (K.fits_hole op.now) tree.now.tree _cut.now parts.now }
    ensures { IfOk result (λ v. ArePairs (K.upward op.now) tree.now.tree _cut.now v.items) }
{
    tree.admitted();
    let _nodes = tree.len();
    summaries_join(op);
    let pairs = join_below(alloc, op, parts)?;
    Ok(pairs)
}

/// A bridge with the values below its hole.
pub(crate) fn bridge_below<K: TreeOp>(
    _op: &K,
    tree: &Tree,
    m: u32,
    cut: &[Bridge],
    pairs: &[Option<(K::V, K::V)>],
    i: usize,
) -> (Bridge, Option<(K::V, K::V)>)
    requires some { 1 ≤ m }
    requires within { i < length cut.now }
    requires cut { cut.now ≡ bridges m 0 tree.now.tree }
    requires pairs { ArePairs (K.upward _op.now) tree.now.tree cut.now pairs.now }
    ensures same { slice_get cut.now i ≡ Some result.0 }
    ensures bridge { IsBridgeOf tree.now.tree result.0 }
    ensures below { AreBelow (K.upward _op.now) tree.now.tree result.0.hole result.1 }
{
    (bridge_of(tree, m, cut, i), pairs[i])
}

/// The result at a place.
pub(crate) fn finished<K: TreeOp>(op: &K, tree: &Tree, place: u32, value: K::V) -> Tup
    requires takes { K.takes op.now tree.now.ty }
    requires within { place < size tree.now.tree }
    requires value { value ≡ fold_tree (K.upward op.now) (sub_at tree.now.tree place) }
{
    tree.admitted();
    let _nodes = tree.len();
    op.finish(value, tree.size(place))
}

fn leaf_of<K: TreeOp>(op: &K, e: Tup) -> K::V
    requires { IsElementOf (K.takes op.now) e }
    ensures { K.fits op.now result 1 }
{
    op.leaf(e)
}

fn node_of<K: TreeOp>(op: &K, e: Tup) -> K::G
    requires { IsElementOf (K.takes op.now) e }
    ensures { K.fits_hole op.now result 1 }
{
    op.phi(e)
}

// The value of a node over two others.
fn over<K: TreeOp>(op: &K, x: K::V, nx: u32, g: K::G, n: u32, y: K::V, ny: u32) -> K::V
    requires few { nx + n + ny ≤ MAX_ELEMENTS }
    requires left { K.fits op.now x nx }
    requires middle { K.fits_hole op.now g n }
    requires right { K.fits op.now y ny }
    ensures { K.fits op.now result (nx + n + ny) }
{
    op.psi_n(x, nx, g, n, y, ny)
}

/// The value of a node over two leaves, all three with the same element.
pub(crate) fn three<K: TreeOp>(op: &K, e: Tup) -> K::V
    requires { IsElementOf (K.takes op.now) e }
    ensures { K.fits op.now result 3 }
{
    over(op, leaf_of(op, e), 1, node_of(op, e), 1, leaf_of(op, e), 1)
}

/// The result of a part, with two trees of three nodes each below its hole.
pub(crate) fn over_both<K: TreeOp>(op: &K, x: K::V, g: K::G, n: u32, y: K::V) -> Tup
    requires few { n ≤ 100 }
    requires left { K.fits op.now x 3 }
    requires middle { K.fits_hole op.now g n }
    requires right { K.fits op.now y 3 }
{
    op.finish(over(op, x, 3, g, n, y, 3), 3 + n + 3)
}

/// The node that a bridge with a hole comes to, and its weight.
pub(crate) fn open_node<K: TreeOp>(
    _op: &K,
    _tree: &Tree,
    _bridge: &Bridge,
    part: Summary<K::V, K::G>,
) -> Option<(K::G, u32)>
    requires { Sums (K.upward _op.now) (IsElementOf (K.takes _op.now)) (K.fits _op.now) (K.fits_hole _op.now) (part_at _tree.now.tree _bridge.now) part }
    ensures { IfSome result (λ x. K.fits_hole _op.now x.0 x.1) }
{
    match part {
        Summary::Value { .. } => None,
        Summary::Hole { g, n } => Some((g, n)),
    }
}
