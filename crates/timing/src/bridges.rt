//! Times the cut of a tree into bridges, and the contraction of each bridge. With the words SHAPE
//! OP M NODES RUNS it prints the least time of RUNS cuts, the least of as many contractions of all
//! bridges, both in nanoseconds, the number of bridges, and what the tree comes to. SHAPE is 0 for
//! a random tree, 1 for a left chain, 2 for a balanced tree; OP is 0 for `sum`, 1 for `heavy`.

ghost use Rattle.std.specs.Prelude.{◌≡◌, ◌≤◌, ◌<◌};

mod bridged;
mod trees;

use crate::bridges::bridged::{contracted, joined};
use crate::bridges::trees::{Shape, tree_of};
use crate::words;
use anyhow::{Result, bail};
use bin_tree::{Steps, Tree};
use m_bridges::split;
use op_laws::TreeOp;
use std::marker::Brand;
use std::rt::Clock;
use std::sync::ledger::{Blank, Ledger};
use std::time::Instant;
use tree_aux::{Heavy, TSum};

// What a run took, in nanoseconds, and what it gave.
#[derive(Clone, Copy)]
struct Row {
    cut: u128,
    contraction: u128,
    bridges: u32,
    fold: i128,
}

/// A timed run by the words, or the short one.
pub(crate) fn run<R: AllocGlobal + Clock + Print>(rt: &R, words: &[String]) -> Result<()> {
    let numbers = words::numbers(rt.alloc(), words)?;
    match numbers.as_slice() {
        [] => small(rt),
        [shape, op, m, nodes, runs] => timed(rt, *shape, *op, *m, *nodes, *runs),
        _ => bail!("usage: timing bridges SHAPE OP M NODES RUNS"),
    }
}

/// Prints how many bridges small trees have, and what they come to.
pub(crate) fn small<R: AllocGlobal + Clock + Print>(rt: &R) -> Result<()> {
    for shape in 0..3 {
        for m in [1, 7, 100] {
            let tree = tree_of(rt.alloc(), shape_of(shape)?, 1001)?;
            let sum = row_of(rt, 0, &tree, m)?;
            let heavy = row_of(rt, 1, &tree, m)?;
            println!(rt;
                "shape {shape}, m {m}: {} bridges, sum {}, heavy {}",
                sum.bridges, sum.fold, heavy.fold
            )?;
        }
    }
    Ok(())
}

fn timed<R: AllocGlobal + Clock + Print>(
    rt: &R,
    shape: u32,
    op: u32,
    m: u32,
    nodes: u32,
    runs: u32,
) -> Result<()> {
    let tree = tree_of(rt.alloc(), shape_of(shape)?, nodes)?;
    let mut least = row_of(rt, op, &tree, m)?;
    for _ in 1..runs {
        let next = row_of(rt, op, &tree, m)?;
        least.cut = least.cut.min(next.cut);
        least.contraction = least.contraction.min(next.contraction);
    }
    println!(rt;
        "{} {} {} {}",
        least.cut, least.contraction, least.bridges, least.fold
    )?;
    Ok(())
}

fn shape_of(shape: u32) -> Result<Shape> {
    match shape {
        0 => Ok(Shape::Random),
        1 => Ok(Shape::Chain),
        2 => Ok(Shape::Balanced),
        _ => bail!("SHAPE is 0, 1 or 2"),
    }
}

fn row_of<R: AllocGlobal + Clock>(rt: &R, op: u32, tree: &Tree, m: u32) -> Result<Row> {
    if m == 0 {
        bail!("M is at least 1");
    }
    match op {
        0 => run_by(rt, &TSum::<64>::new(), tree, m),
        1 => run_by(rt, &Heavy::<64>::new(), tree, m),
        _ => bail!("OP is 0 or 1"),
    }
}

fn run_by<K: TreeOp<V = i128>, R: AllocGlobal + Clock>(
    rt: &R,
    op: &K,
    tree: &Tree,
    m: u32,
) -> Result<Row>
    requires { 1 ≤ m }
{
    if !op.accepts(tree.values().ty()) {
        bail!("the operator doesn't take the tree");
    }
    measured::<K, Brand, R>(rt, op, tree, m, Blank::new(1))
}

fn measured<K: TreeOp<V = i128>, L: Ledger, R: AllocGlobal + Clock>(
    rt: &R,
    op: &K,
    tree: &Tree,
    m: u32,
    blank: Blank,
) -> Result<Row>
    requires some { 1 ≤ m }
    requires takes { K.takes op.now tree.now.ty }
    requires name { blank.name ≡ L.name }
    requires parts { blank.parts ≡ L.parts }
    requires some_parts { 0 < blank.parts }
{
    let mut steps = Steps::<L>::new(blank);
    let start = Instant::now(rt)?;
    let bridges = split(rt.alloc(), tree, m)?;
    let cut = start.elapsed(rt)?.as_nanos();
    let start = Instant::now(rt)?;
    let parts = contracted(rt.alloc(), op, tree, m, bridges.as_slice(), &mut steps)?;
    let contraction = start.elapsed(rt)?.as_nanos();
    Ok(Row {
        cut,
        contraction,
        bridges: bridges.len(),
        fold: joined(rt.alloc(), op, tree, m, &parts)?,
    })
}
