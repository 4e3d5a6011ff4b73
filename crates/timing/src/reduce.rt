//! Times the reduction of a list by an operator. With the words OP COUNT RUNS it prints the least
//! time of RUNS reductions of COUNT elements in nanoseconds, and what they come to.

ghost use Rattle.std.specs.Prelude.{◌≡◌, IfOk};

use crate::clock::least_time;
use crate::numbers::{SEED, next_shifted};
use crate::words::number;
use anyhow::{Result, bail};
use op_catalog::{ListOp, reduce};
use op_laws::{ElemType, List, MAX_ELEMENTS, Tup, Width};
use std::alloc::Global;
use std::rt::Clock;

const NAMES: [&str; 9] = [
    "add", "mul", "min", "max", "and", "or", "xor", "mss", "affine",
];

/// A timed run by the words, or the short one.
pub(crate) fn run<R: AllocGlobal + Clock + Print>(rt: &R, words: &[String]) -> Result<()> {
    match words {
        [] => small(rt),
        [name, count, runs] => timed(
            rt,
            name.as_str(),
            number(count.as_str())?,
            number(runs.as_str())?,
        ),
        _ => bail!("usage: timing reduce OP COUNT RUNS"),
    }
}

/// Prints the reductions of a short list by each operator that has a unit.
pub(crate) fn small<R: AllocGlobal + Print>(rt: &R) -> Result<()> {
    for name in NAMES {
        let (op, list) = case_of(rt.alloc(), name, 1000)?;
        let reduced = reduced(&list, op)?;
        println!(rt; "{name}: {reduced:?}")?;
    }
    Ok(())
}

fn timed<R: AllocGlobal + Clock + Print>(rt: &R, name: &str, count: u32, runs: u32) -> Result<()> {
    let (op, list) = case_of(rt.alloc(), name, count)?;
    let first = reduced(&list, op)?;
    let (least, last) = least_time(rt, runs, first, || reduced(&list, op))?;
    println!(rt; "{least} {last:?}")?;
    Ok(())
}

// The operator of a name, and a list for it.
fn case_of(alloc: Global, name: &str, count: u32) -> Result<(ListOp, List)> {
    let Some(op) = ListOp::of_name(name.as_bytes()) else {
        bail!("no operator {name}");
    };
    let one = ElemType::one(Width::W64);
    let ty = match op {
        ListOp::Affine => one.push(Width::W64),
        _ => one,
    };
    Ok((op, list_of(alloc, ty, count)?))
}

fn reduced(list: &List, op: ListOp) -> Result<Tup> {
    if op.typed(list.ty()).is_err() || !op.has_unit() {
        bail!("no operator for the list");
    }
    Ok(reduce(list, op))
}

// A list of odd numbers over the whole range of 64 bits.
fn list_of(alloc: Global, ty: ElemType, count: u32) -> Result<List> {
    let mut list = List::new(alloc, ty);
    let mut state = SEED;
    for _ in 0..count {
        let element = next_element(&mut state, ty.len() == 2);
        if !list.ty().admits(element) || list.len() == MAX_ELEMENTS {
            bail!("no element for the list");
        }
        list.push(element)?;
    }
    Ok(list)
}

fn next_element(state: &mut u64, pair: bool) -> Tup {
    let first = next_number(state);
    if pair {
        Tup::two(first, next_number(state))
    } else {
        Tup::one(first)
    }
}

// An odd number of 64 bits.
fn next_number(state: &mut u64) -> i128 {
    i128::from(next_shifted(state) | 1) - 9_223_372_036_854_775_808
}
