//! Times the skeletons on lists by workers. With the words FORM WORKERS COUNT RUNS it prints the
//! least time of RUNS runs over COUNT numbers of 64 bits, in nanoseconds, and what they come to.
//! FORM is `add` or `mss`, a reduction; `kept`, the sum of the squares of the even numbers; `scan`,
//! all prefix sums, of which one number is printed; or `list`, which makes the list alone.

mod form;
mod numbers;

use crate::clock::least_time;
use crate::lists::form::Form;
use crate::lists::numbers::list_of;
use crate::words::number;
use anyhow::{Result, bail};
use list_fusion::{Head, Pipe};
use op_laws::List;
use std::rt::Clock;
use std::thread::Threads;
use worker_split::{Cut, MAX_WORKERS};

// A block's numbers are 512 KiB.
const BLOCK: u32 = 65_536;

/// A timed run by the words, or the short one.
pub(crate) fn run<R: Threads + Sync + AllocGlobal + Clock + Print>(
    rt: &R,
    words: &[String],
) -> Result<()> {
    match words {
        [] => small(rt),
        [name, workers, count, runs] => {
            let form = Form::of_name(name.as_str())?;
            let cut = cut_of(BLOCK, number(workers.as_str())?)?;
            let list = list_of(rt.alloc(), number(count.as_str())?)?;
            timed(rt, form, &list, cut, number(runs.as_str())?)
        }
        _ => bail!("usage: timing lists FORM WORKERS COUNT RUNS"),
    }
}

/// Prints what each form comes to on a short list, the same for each number of workers.
pub(crate) fn small<R: Threads + Sync + AllocGlobal + Print>(rt: &R) -> Result<()> {
    let list = list_of(rt.alloc(), 1000)?;
    for name in ["add", "mss", "kept", "scan"] {
        let form = Form::of_name(name)?;
        for workers in [1, 2, 4] {
            let answer = answer_of(rt, form, &list, cut_of(70, workers)?)?;
            println!(rt; "{name}, {workers} workers: {answer}")?;
        }
    }
    Ok(())
}

fn timed<R: Threads + Sync + AllocGlobal + Clock + Print>(
    rt: &R,
    form: Form,
    list: &List,
    cut: Cut,
    runs: u32,
) -> Result<()> {
    let (least, answer) = least_time(rt, runs, 0, || answer_of(rt, form, list, cut))?;
    println!(rt; "{least} {answer}")?;
    Ok(())
}

fn answer_of<R: Threads + Sync + AllocGlobal>(
    rt: &R,
    form: Form,
    list: &List,
    cut: Cut,
) -> Result<i128> {
    let mut pipe = Pipe::of(rt.alloc(), Head::One(list));
    form.run(rt, rt.alloc(), &mut pipe, cut)
}

fn cut_of(block: u32, workers: u32) -> Result<Cut> {
    if block == 0 || workers == 0 || workers > MAX_WORKERS {
        bail!("WORKERS is 1 to {MAX_WORKERS}");
    }
    Ok(Cut { block, workers })
}
