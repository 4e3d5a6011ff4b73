//! What no clause of `bridge_contract` says: that its downward calls answer where there is memory,
//! and what the operators bring down small trees, worked out from their tables apart from the code.

ghost use Rattle.std.specs.Prelude.{◌≡◌, ◌≤◌, ◌<◌, length};
ghost use Rattle.m_bridges.specs.Bridges.{bridges};
ghost use Rattle.bridge_contract.specs.AtRoots.{ComeDown};

use crate::down::{bridge_down, come_down, led_down, started};
use crate::trees::{TREES, assert_own, numbers_of, tree_of};
use bin_tree::{Steps, Tree};
use bridge_contract::expand_down;
use m_bridges::{Bridge, split};
use op_laws::DownOp;
use std::alloc::Global;
use std::marker::Brand;
use std::process::Abort;
use std::sync::ledger::{Blank, Ledger};
use std::test::Fail;
use tree_aux::{HeapIndex, PathMax, PathSum, Pre, RPath, Turns};

// The values at a bridge's own nodes.
fn assert_bridge<D: DownOp>(
    rt: &impl Abort,
    alloc: Global,
    op: &D,
    tree: &Tree,
    m: u32,
    cut: &[Bridge],
    c: D::V,
    values: &[D::V],
    i: usize,
    wanted: &[i128],
) -> Result<(), Fail>
    requires some { 1 ≤ m }
    requires takes { D.takes op.now tree.now.ty }
    requires within { i < length cut.now }
    requires cut { cut.now ≡ bridges m 0 tree.now.tree }
    requires first { D.fits op.now c 1 }
    requires values { ComeDown (D.downward op.now) c tree.now.tree cut.now values.now }
{
    let (bridge, value) = bridge_down(op, tree, m, cut, c, values, i);
    let filled = expand_down(alloc, op, tree, &bridge, value)?;
    assert_own(rt, tree, &bridge, &filled, wanted);
    Ok(())
}

// The values at all nodes, bridge by bridge.
fn down_by<D: DownOp, L: Ledger>(
    rt: &impl Abort,
    alloc: Global,
    op: &D,
    tree: &Tree,
    m: u32,
    c: i64,
    wanted: &[i128],
    blank: Blank,
) -> Result<(), Fail>
    requires some { 1 ≤ m }
    requires takes { D.takes op.now tree.now.ty }
    requires name { blank.name ≡ L.name }
    requires parts { blank.parts ≡ L.parts }
    requires some_parts { 0 < blank.parts }
{
    let mut steps = Steps::<L>::new(blank);
    let bridges = split(alloc, tree, m)?;
    let cut = bridges.as_slice();
    let parts = led_down(alloc, op, tree, m, cut, &mut steps)?;
    let c = started(op, c).expect(rt, "a number of w64");
    let values = come_down(alloc, op, tree, m, cut, c, &parts)?;
    for i in 0..cut.len() {
        assert_bridge(rt, alloc, op, tree, m, cut, c, &values, i, wanted)?;
    }
    Ok(())
}

fn assert_down<D: DownOp>(
    rt: &impl Abort,
    alloc: Global,
    op: &D,
    c: i64,
    rows: &str,
) -> Result<(), Fail> {
    for (i, row) in rows.split(" / ").enumerate() {
        assert!(rt; i < 4);
        let tree = tree_of(rt, alloc, TREES[i])?;
        let wanted = numbers_of(alloc, row)?;
        assert!(rt; op.accepts(tree.values().ty()));
        for m in 1..8 {
            down_by::<D, Brand>(rt, alloc, op, &tree, m, c, &wanted, Blank::new(1))?;
        }
    }
    Ok(())
}

// Of the last tree the values are the sizes of the left subtrees, so that `pre` numbers its nodes.
#[test]
fn operators_come_down_by_bridges(rt: HostRuntime) -> Result<(), Fail> {
    let alloc = rt.alloc();
    assert_down(
        &rt,
        alloc,
        &PathSum::<64>::new(),
        0,
        "0 1 1 4 4 / 0 1 3 6 6 3 1 / 0 -3 -3 1 1 1 1",
    )?;
    assert_down(
        &rt,
        alloc,
        &PathMax::<64>::new(),
        -5,
        "-5 1 1 3 3 / -5 1 2 3 3 2 1 / -5 -3 -3 4 4 4 4",
    )?;
    assert_down(
        &rt,
        alloc,
        &Turns::new(),
        0,
        "0 1 0 1 0 / 0 1 2 3 2 1 0 / 0 1 0 1 0 1 0",
    )?;
    assert_down(
        &rt,
        alloc,
        &HeapIndex::new(),
        1,
        "1 2 3 6 7 / 1 2 4 8 9 5 3 / 1 2 3 6 7 14 15",
    )?;
    assert_down(
        &rt,
        alloc,
        &Pre::<64>::new(),
        0,
        "0 1 2 3 6 / 0 1 2 3 6 4 2 / 0 1 -2 -1 3 4 4 / 0 1 2 3 4",
    )?;
    assert_down(
        &rt,
        alloc,
        &RPath::<64>::new(),
        0,
        "0 1 0 3 0 / 0 1 3 6 3 1 0 / 0 -3 0 4 0 0 0",
    )
}
