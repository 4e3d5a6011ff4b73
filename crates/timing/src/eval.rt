//! Times the evaluation of scalar functions over columns. With the words FUNCTION WAY COUNT RUNS it
//! prints the least time of RUNS runs over COUNT numbers, in nanoseconds, and the sum. FUNCTION is
//! 0 for the square, 1 for "is even", 2 for three operators wrapped; WAY is 0 for columns of 64-bit
//! numbers, 1 for columns of 128-bit numbers, 2 for element by element.

mod numbers;
mod sums;

use crate::clock::least_time;
use crate::eval::numbers::{narrow_numbers, wide_numbers};
use crate::eval::sums::{sum_narrow, sum_one, sum_wide};
use crate::functions::{even, mixed, square};
use crate::words;
use anyhow::{Result, bail};
use op_laws::{ElemType, Width};
use scalar_expr::Typed;
use std::alloc::Global;
use std::rt::Clock;

/// A timed run by the words, or the short one.
pub(crate) fn run<R: AllocGlobal + Clock + Print>(rt: &R, words: &[String]) -> Result<()> {
    let numbers = words::numbers(rt.alloc(), words)?;
    match numbers.as_slice() {
        [] => small(rt),
        [function, way, count, runs] => timed(rt, *function, *way, *count, *runs),
        _ => bail!("usage: timing eval FUNCTION WAY COUNT RUNS"),
    }
}

/// Prints the sum of each function's results in each way on a few numbers, the same in each way.
pub(crate) fn small<R: AllocGlobal + Print>(rt: &R) -> Result<()> {
    let narrow = narrow_numbers(rt.alloc(), 1000)?;
    let wide = wide_numbers(rt.alloc(), 1000)?;
    for function in 0..3 {
        let f = function_of(rt.alloc(), function)?;
        for way in 0..3 {
            let sum = sum_by(way, &f, &narrow, &wide)?;
            println!(rt; "function {function}, way {way}: {sum}")?;
        }
    }
    Ok(())
}

fn timed<R: AllocGlobal + Clock + Print>(
    rt: &R,
    function: u32,
    way: u32,
    count: u32,
    runs: u32,
) -> Result<()> {
    let f = function_of(rt.alloc(), function)?;
    let wide_count = if way == 1 { count } else { 0 };
    let narrow = narrow_numbers(rt.alloc(), count - wide_count)?;
    let wide = wide_numbers(rt.alloc(), wide_count)?;
    let (least, sum) = least_time(rt, runs, 0, || sum_by(way, &f, &narrow, &wide))?;
    println!(rt; "{least} {sum}")?;
    Ok(())
}

// The function of this number, on elements of one number of 64 bits.
fn function_of(alloc: Global, number: u32) -> Result<Typed> {
    let ty = ElemType::one(Width::W64);
    match number {
        0 => square(alloc, ty),
        1 => even(alloc, ty),
        2 => mixed(alloc, ty),
        _ => bail!("FUNCTION is 0, 1 or 2"),
    }
}

// The sum of the function's results.
fn sum_by(way: u32, f: &Typed, narrow: &[i64], wide: &[i128]) -> Result<i128> {
    if f.takes().len() != 1 || f.gives().len() != 1 || f.room() > 8 || !f.is_narrow() {
        bail!("the function has no such form");
    }
    match way {
        0 => Ok(sum_narrow(f, narrow)),
        1 => Ok(sum_wide(f, wide)),
        2 => Ok(sum_one(f, narrow)),
        _ => bail!("WAY is 0, 1 or 2"),
    }
}
