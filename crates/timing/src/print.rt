//! Times printing. With the words NUMBERS RANGE RUNS it prints a list of so many numbers RUNS times
//! to standard output, of up to three digits where RANGE is 0 and of 64 bits where it is 1, and the
//! least time of a run in nanoseconds to standard error.

ghost use Rattle.std.specs.Prelude.{◌≡◌, IfOk, length};

mod stream;

use crate::clock::least_time;
use crate::numbers::next_linear;
use crate::print::stream::Stream;
use crate::words;
use anyhow::{Result, bail};
use data_text::{Name, Named, Outlet, Value, is_name, write_value};
use op_laws::List;
use std::alloc::{AllocError, Global};
use std::rt::Clock;

/// A timed run by the words, or the short one.
pub(crate) fn run(rt: &HostRuntime, words: &[String]) -> Result<()> {
    let numbers = words::numbers(rt.alloc(), words)?;
    match numbers.as_slice() {
        [] => small(rt),
        [count, range, runs] => timed(rt, *count, *range, *runs),
        _ => bail!("usage: timing print NUMBERS RANGE RUNS"),
    }
}

// Numbers that are the same each time: of up to three digits, or of 64 bits.
fn made(alloc: Global, count: u32, is_wide: bool) -> Result<Vec<i64>, AllocError>
    ensures { IfOk result (λ v. length v.items ≡ count) }
{
    let mut numbers = vec![in alloc; 0i64; count as usize]?;
    let mut x: u64 = 7;
    for number in numbers.iter_mut() {
        x = next_linear(x);
        let wide = x.cast_signed();
        *number = if is_wide { wide } else { (wide >> 33) % 1000 };
    }
    Ok(numbers)
}

// A list under the name x.
fn list(alloc: Global, count: u32, is_wide: bool) -> Result<Named> {
    if !is_name(b"x") {
        bail!("no name");
    }
    Ok(Named {
        name: Name::of(alloc, b"x")?,
        value: Value::List(List::of_w64(made(alloc, count, is_wide)?)),
    })
}

fn print(rt: &HostRuntime, value: &Named) -> Result<()> {
    let mut sink = Stream::new(rt.stdout());
    let mut outlet = Outlet::new();
    let is_given = write_value(value, &mut outlet, &mut sink).is_ok();
    if !is_given || outlet.finish(&mut sink).is_err() {
        bail!("output failed");
    }
    Ok(())
}

/// Prints two short lists.
pub(crate) fn small(rt: &HostRuntime) -> Result<()> {
    print(rt, &list(rt.alloc(), 8, false)?)?;
    print(rt, &list(rt.alloc(), 4, true)?)
}

fn timed(rt: &HostRuntime, count: u32, range: u32, runs: u32) -> Result<()> {
    let value = list(rt.alloc(), count, range == 1)?;
    let (least, _) = least_time(rt, runs, (), || print(rt, &value))?;
    eprintln!(rt; "{least}")?;
    Ok(())
}
