//! What no clause of `bridge_contract` says: that its upward calls answer where there is memory, and
//! what the operators come to on small trees, worked out from their tables apart from the code.

ghost use Rattle.std.specs.Prelude.{◌≡◌, ◌≤◌, ◌<◌, length};
ghost use Rattle.m_bridges.specs.Bridges.{bridges};
ghost use Rattle.bridge_contract.specs.AtRoots.{AreFolds, ArePairs};

use crate::trees::{TREES, assert_own, bridge_of, numbers_of, tree_of};
use crate::up::{
    bridge_below, bridge_up, contracted, finished, joined, open_node, over_both, pairs, three,
};
use bin_tree::{Steps, Tree};
use bridge_contract::{contract, expand_up};
use m_bridges::{Bridge, split};
use op_laws::{TreeOp, Tup};
use std::alloc::Global;
use std::marker::Brand;
use std::process::Abort;
use std::sync::ledger::{Blank, Ledger};
use std::test::Fail;
use tree_aux::{BestSub, ExprOp, Heavy, RHeavy, RMax, RMin, RRing, RSum, TMax, TMin, TSum};

// The value at a bridge's root.
fn assert_root<K: TreeOp>(
    rt: &impl Abort,
    op: &K,
    tree: &Tree,
    m: u32,
    cut: &[Bridge],
    values: &[K::V],
    i: usize,
    wanted: &[i128],
)
    requires some { 1 ≤ m }
    requires takes { K.takes op.now tree.now.ty }
    requires within { i < length cut.now }
    requires cut { cut.now ≡ bridges m 0 tree.now.tree }
    requires values { AreFolds (K.upward op.now) tree.now.tree cut.now values.now }
{
    let (bridge, value) = bridge_up(op, tree, m, cut, values, i);
    assert!(rt; bridge.root < tree.len());
    assert!(rt; (bridge.root as usize) < wanted.len());
    let root = finished(op, tree, bridge.root, value);
    assert_eq!(rt;
        root,
        Tup::one(wanted[bridge.root as usize]),
        "the root of {bridge:?} by {m}"
    );
}

// The values at a bridge's own nodes.
fn assert_filled<K: TreeOp>(
    rt: &impl Abort,
    alloc: Global,
    op: &K,
    tree: &Tree,
    m: u32,
    cut: &[Bridge],
    pairs: &[Option<(K::V, K::V)>],
    i: usize,
    wanted: &[i128],
) -> Result<(), Fail>
    requires some { 1 ≤ m }
    requires takes { K.takes op.now tree.now.ty }
    requires within { i < length cut.now }
    requires cut { cut.now ≡ bridges m 0 tree.now.tree }
    requires pairs { ArePairs (K.upward op.now) tree.now.tree cut.now pairs.now }
{
    let (bridge, below) = bridge_below(op, tree, m, cut, pairs, i);
    let filled = expand_up(alloc, op, tree, &bridge, below)?;
    assert_own(rt, tree, &bridge, &filled, wanted);
    Ok(())
}

// The values at all nodes, bridge by bridge.
fn up_by<K: TreeOp, L: Ledger>(
    rt: &impl Abort,
    alloc: Global,
    op: &K,
    tree: &Tree,
    m: u32,
    wanted: &[i128],
    blank: Blank,
) -> Result<(), Fail>
    requires some { 1 ≤ m }
    requires takes { K.takes op.now tree.now.ty }
    requires name { blank.name ≡ L.name }
    requires parts { blank.parts ≡ L.parts }
    requires some_parts { 0 < blank.parts }
{
    let mut steps = Steps::<L>::new(blank);
    let bridges = split(alloc, tree, m)?;
    let cut = bridges.as_slice();
    let parts = contracted(alloc, op, tree, m, cut, &mut steps)?;
    let values = joined(alloc, op, tree, m, cut, &parts)?;
    let pairs = pairs(alloc, op, tree, m, cut, &parts)?;
    for i in 0..cut.len() {
        assert_root(rt, op, tree, m, cut, &values, i, wanted);
        assert_filled(rt, alloc, op, tree, m, cut, &pairs, i, wanted)?;
    }
    Ok(())
}

fn assert_up<K: TreeOp>(rt: &impl Abort, alloc: Global, op: &K, rows: &str) -> Result<(), Fail> {
    for (i, row) in rows.split(" / ").enumerate() {
        assert!(rt; i < 4);
        let tree = tree_of(rt, alloc, TREES[i])?;
        let wanted = numbers_of(alloc, row)?;
        assert!(rt; op.accepts(tree.values().ty()));
        for m in 1..8 {
            up_by::<K, Brand>(rt, alloc, op, &tree, m, &wanted, Blank::new(1))?;
        }
    }
    Ok(())
}

#[test]
fn operators_go_up_by_bridges(rt: HostRuntime) -> Result<(), Fail> {
    let alloc = rt.alloc();
    assert_up(
        &rt,
        alloc,
        &TSum::<64>::new(),
        "15 2 12 4 5 / 28 20 12 4 5 6 7 / 2 5 0 -2 -2 7 -9",
    )?;
    assert_up(
        &rt,
        alloc,
        &TMin::<64>::new(),
        "1 2 3 4 5 / 1 2 3 4 5 6 7 / -9 5 -9 -2 -9 7 -9",
    )?;
    assert_up(
        &rt,
        alloc,
        &TMax::<64>::new(),
        "5 2 5 4 5 / 7 6 5 4 5 6 7 / 7 5 7 -2 7 7 -9",
    )?;
    assert_up(
        &rt,
        alloc,
        &Heavy::<64>::new(),
        "9 2 8 4 5 / 11 10 8 4 5 6 7 / 8 5 11 -2 7 7 -9",
    )?;
    assert_up(
        &rt,
        alloc,
        &BestSub::<64>::new(),
        "15 2 12 4 5 / 28 20 12 4 5 6 7 / 7 5 7 -2 7 7 -9",
    )?;
    assert_up(
        &rt,
        alloc,
        &ExprOp::new(),
        "40 2 20 4 5 / 840 120 20 4 5 6 7 / 20 5 4 -2 -2 7 -9",
    )
}

// A leaf of a rose tree's binary tree stands for no tree.
#[test]
fn operators_on_rose_trees_go_up_by_bridges(rt: HostRuntime) -> Result<(), Fail> {
    let alloc = rt.alloc();
    assert_up(
        &rt,
        alloc,
        &RSum::<64>::new(),
        "4 0 3 0 0 / 6 5 3 0 0 0 0 / 1 0 4 0 0 0 0",
    )?;
    assert_up(
        &rt,
        alloc,
        &RMax::<64>::new(),
        "3 0 3 0 0 / 3 3 3 0 0 0 0 / 4 0 4 0 0 0 0",
    )?;
    assert_up(
        &rt,
        alloc,
        &RMin::<64>::new(),
        "1 0 3 0 0 / 1 2 3 0 0 0 0 / -3 0 0 0 0 0 0",
    )?;
    assert_up(
        &rt,
        alloc,
        &RHeavy::<64>::new(),
        "3 0 3 0 0 / 6 5 3 0 0 0 0 / 4 0 4 0 0 0 0",
    )?;
    assert_up(
        &rt,
        alloc,
        &RRing::new(),
        "4 0 3 0 0 / 9 8 3 0 0 0 0 / 1 0 4 0 0 0 0",
    )
}

// The node that a bridge comes to, over two trees that don't hang below its hole.
fn assert_over<K: TreeOp>(
    rt: &impl Abort,
    op: &K,
    tree: &Tree,
    g: K::G,
    n: u32,
    pair: (i64, i64),
    wanted: i128,
)
    requires takes { K.takes op.now tree.now.ty }
    requires fit { K.fits_hole op.now g n }
    requires few { n ≤ 100 }
{
    let ty = tree.values().ty();
    let (x, y) = (Tup::one(pair.0 as i128), Tup::one(pair.1 as i128));
    assert!(rt; ty.admits(x));
    assert!(rt; ty.admits(y));
    let result = over_both(op, three(op, x), g, n, three(op, y));
    assert_eq!(rt; result, Tup::one(wanted), "over {pair:?}");
}

// The first bridge by 4, over two pairs of trees.
fn hole_by<K: TreeOp, L: Ledger>(
    rt: &impl Abort,
    alloc: Global,
    op: &K,
    tree: &Tree,
    wanted: &[i128],
    blank: Blank,
) -> Result<(), Fail>
    requires takes { K.takes op.now tree.now.ty }
    requires name { blank.name ≡ L.name }
    requires parts { blank.parts ≡ L.parts }
    requires some_parts { 0 < blank.parts }
{
    let mut steps = Steps::<L>::new(blank);
    let bridges = split(alloc, tree, 4)?;
    assert!(rt; bridges.as_slice().len() == 3);
    assert!(rt; wanted.len() == 2);
    let first = bridge_of(tree, 4, bridges.as_slice(), 0);
    let part = contract(alloc, op, tree, &first, &mut steps)?;
    let (g, n) = open_node(op, tree, &first, part).expect(rt, "a bridge with a hole");
    assert!(rt; n == 3);
    assert_over(rt, op, tree, g, n, (2, -3), wanted[0]);
    assert_over(rt, op, tree, g, n, (-8, 10), wanted[1]);
    Ok(())
}

fn assert_hole<K: TreeOp>(rt: &impl Abort, alloc: Global, op: &K, rows: &str) -> Result<(), Fail> {
    for (i, row) in rows.split(" / ").enumerate() {
        assert!(rt; i < 2);
        let tree = tree_of(rt, alloc, TREES[i + 1])?;
        let wanted = numbers_of(alloc, row)?;
        assert!(rt; op.accepts(tree.values().ty()));
        hole_by::<K, Brand>(rt, alloc, op, &tree, &wanted, Blank::new(1))?;
    }
    Ok(())
}

// Below the holes hang two trees of three equal nodes each, of 2 and -3, and then of -8 and 10, in
// place of what hangs there in the trees.
#[test]
fn a_bridge_comes_to_one_node_whatever_hangs_below_it(rt: HostRuntime) -> Result<(), Fail> {
    let alloc = rt.alloc();
    assert_hole(&rt, alloc, &TSum::<64>::new(), "7 16 / 3 12")?;
    assert_hole(&rt, alloc, &TMin::<64>::new(), "-3 -8 / -3 -8")?;
    assert_hole(&rt, alloc, &TMax::<64>::new(), "7 10 / 5 10")?;
    assert_hole(&rt, alloc, &Heavy::<64>::new(), "8 23 / 5 21")?;
    assert_hole(&rt, alloc, &BestSub::<64>::new(), "7 30 / 6 30")?;
    assert_hole(&rt, alloc, &ExprOp::new(), "252 44800 / 180 32000")?;
    assert_hole(&rt, alloc, &RSum::<64>::new(), "2 5 / 0 3")?;
    assert_hole(&rt, alloc, &RMax::<64>::new(), "2 10 / 4 10")?;
    assert_hole(&rt, alloc, &RMin::<64>::new(), "-3 -8 / -3 -8")?;
    assert_hole(&rt, alloc, &RHeavy::<64>::new(), "5 11 / 6 10")?;
    assert_hole(&rt, alloc, &RRing::new(), "4 -3 / 6 -21")
}
