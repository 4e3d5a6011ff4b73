//! The time of a call.

use anyhow::Result;
use std::rt::Clock;
use std::time::Instant;

/// The least time of so many calls in nanoseconds, and what the last one gave: without a call the
/// greatest number, and what is passed.
pub(crate) fn least_time<R: Clock, T: Copy, F: FnMut() -> Result<T>>(
    rt: &R,
    runs: u32,
    before: T,
    mut call: F,
) -> Result<(u128, T)>
    requires { F.IsAlwaysCallable call }
{
    let mut least = u128::MAX;
    let mut last = before;
    for _ in 0..runs {
        let start = Instant::now(rt)?;
        last = call()?;
        least = least.min(start.elapsed(rt)?.as_nanos());
    }
    Ok((least, last))
}
