//! Values that come down trees, by one part from each of their bridges.

ghost use Rattle.std.specs.Prelude.{◌≡◌, ◌≤◌, ◌<◌, ◌+◌, ◌*◌, IfOk, IfSome, length};
ghost use Rattle.op_laws.specs.declared.width.Width.TheVariants.{W64};
ghost use Rattle.op_laws.specs.Widths.{FitsWidth};
ghost use Rattle.m_bridges.specs.Bridges.{bridges};
ghost use Rattle.m_bridges.specs.Places.{IsBridgeOf};
ghost use Rattle.bridge_contract.specs.DownsOf.{DownsOf, down_at};
ghost use Rattle.bridge_contract.specs.OwnNodes.{depth_at};
ghost use Rattle.bridge_contract.specs.AtRoots.{ComeDown};

use crate::trees::bridge_of;
use bin_tree::{Steps, Tree};
use bridge_contract::{DownSummary, contract_down, join_down};
use m_bridges::Bridge;
use op_laws::{DownOp, Width};
use std::alloc::{AllocError, Global};
use std::sync::ledger::Ledger;

/// What each bridge passes down.
pub(crate) fn led_down<D: DownOp, L: Ledger>(
    alloc: Global,
    op: &D,
    tree: &Tree,
    _m: u32,
    cut: &[Bridge],
    steps: &mut Steps<L>,
) -> Result<Vec<DownSummary<D::D>>, AllocError>
    requires some { 1 ≤ _m }
    requires takes { D.takes op.now tree.now.ty }
    requires cut { cut.now ≡ bridges _m 0 tree.now.tree }
    ensures { IfOk result (λ v. DownsOf (D.downward op.now) (D.fits op.now) (D.fits_way op.now) tree.now.tree cut.now v.items) }
{
    let mut parts = Vec::new(alloc);
    for bridge in cut {
        parts.push(contract_down(op, tree, bridge, steps))?;
    }
    Ok(parts)
}

/// The value at the tree's root, for a number of w64.
pub(crate) fn started<D: DownOp>(op: &D, c: i64) -> Option<D::V>
    ensures { IfSome result (λ v. D.fits op.now v 1) }
{
    if !Width::W64.holds(c as i128) {
        return None;
    }
    Some(start_of(op, c))
}

fn start_of<D: DownOp>(op: &D, c: i64) -> D::V
    requires { FitsWidth W64 c }
    ensures { D.fits op.now result 1 }
{
    op.start(c)
}

/// The value at each bridge's root, from these parts, with `c` at the tree's.
pub(crate) fn come_down<D: DownOp>(
    alloc: Global,
    op: &D,
    tree: &Tree,
    _m: u32,
    _cut: &[Bridge],
    c: D::V,
    parts: &[DownSummary<D::D>],
) -> Result<Vec<D::V>, AllocError>
    requires some { 1 ≤ _m }
    requires value { D.fits op.now c 1 }
    requires cut { _cut.now ≡ bridges _m 0 tree.now.tree }
    requires parts { DownsOf (D.downward op.now) (D.fits op.now) (D.fits_way op.now) tree.now.tree _cut.now parts.now }
    ensures { IfOk result (λ v. ComeDown (D.downward op.now) c tree.now.tree _cut.now v.items) }
{
    let _nodes = tree.len();
    let values = join_down(alloc, op, c, parts)?;
    Ok(values)
}

/// A bridge with the value at its root.
pub(crate) fn bridge_down<D: DownOp>(
    _op: &D,
    tree: &Tree,
    m: u32,
    cut: &[Bridge],
    _c: D::V,
    values: &[D::V],
    i: usize,
) -> (Bridge, D::V)
    requires some { 1 ≤ m }
    requires takes { D.takes _op.now tree.now.ty }
    requires within { i < length cut.now }
    requires cut { cut.now ≡ bridges m 0 tree.now.tree }
    requires first { D.fits _op.now _c 1 }
    requires values { ComeDown (D.downward _op.now) _c tree.now.tree cut.now values.now }
    ensures bridge { IsBridgeOf tree.now.tree result.0 }
    ensures value { result.1 ≡ down_at (D.downward _op.now) _c tree.now.tree result.0.root }
    ensures fit { D.fits _op.now result.1 (1 + 2 * depth_at tree.now.tree result.0.root) }
{
    tree.admitted();
    let _nodes = tree.len();
    (bridge_of(tree, m, cut, i), values[i])
}
