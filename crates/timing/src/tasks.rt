//! Times `run_tasks`. With the words WORKERS TICKETS TURNS RUNS it prints the least time of RUNS
//! runs over TICKETS tickets of TURNS turns each, in nanoseconds, and what the items come to.

ghost use Rattle.std.specs.Prelude.{◌≤◌};

mod turns;

use crate::tasks::turns::Turns;
use crate::words;
use anyhow::{Result, bail};
use std::rt::Clock;
use std::thread::Threads;
use std::time::Instant;
use worker_split::{MAX_WORKERS, OpenGate, run_tasks};

/// A timed run by the words, or the short one.
pub(crate) fn run<R: Threads + Sync + AllocGlobal + Clock + Print>(
    rt: &R,
    words: &[String],
) -> Result<()> {
    let numbers = words::numbers(rt.alloc(), words)?;
    match numbers.as_slice() {
        [] => small(rt),
        [workers, tickets, turns, runs] => timed(rt, *workers, *tickets, *turns, *runs),
        _ => bail!("usage: timing tasks WORKERS TICKETS TURNS RUNS"),
    }
}

/// Prints what the items of a few small sizes come to.
pub(crate) fn small<R: Threads + Sync + AllocGlobal + Print>(rt: &R) -> Result<()> {
    for workers in [1, 2, 4] {
        let task = Turns {
            tickets: 1000,
            turns: 10,
        };
        let items = run_tasks(rt, rt.alloc(), workers, &task, &OpenGate)?;
        let sum = mixed(items.as_slice());
        println!(rt; "{workers} workers: {sum}")?;
    }
    Ok(())
}

fn timed<R: Threads + Sync + AllocGlobal + Clock + Print>(
    rt: &R,
    workers: u32,
    tickets: u32,
    turns: u32,
    runs: u32,
) -> Result<()> {
    if workers == 0 || workers > MAX_WORKERS {
        bail!("WORKERS is 1 to {MAX_WORKERS}");
    }
    let task = Turns { tickets, turns };
    let mut least = u128::MAX;
    let mut sum = 0;
    for _ in 0..runs {
        let start = Instant::now(rt)?;
        let items = run_tasks(rt, rt.alloc(), workers, &task, &OpenGate)?;
        least = least.min(start.elapsed(rt)?.as_nanos());
        sum = mixed(items.as_slice());
    }
    println!(rt; "{least} {sum}")?;
    Ok(())
}

// One number of all items.
fn mixed(items: &[u64]) -> u64 {
    items
        .iter()
        .fold(0, |sum: u64, x| sum.wrapping_mul(31).wrapping_add(*x))
}
