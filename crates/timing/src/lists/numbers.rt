//! The numbers that are gone through.

use crate::numbers::{SEED, next_shifted};
use anyhow::{Result, bail};
use op_laws::{List, MAX_ELEMENTS};
use std::alloc::Global;

/// A list of so many numbers over the whole range of 64 bits, half of them even: Marsaglia's
/// xorshift numbers.
pub(crate) fn list_of(alloc: Global, count: u32) -> Result<List> {
    let mut numbers = Vec::with_capacity(alloc, count as usize)?;
    let mut state = SEED;
    for _ in 0..count {
        numbers.push(next_shifted(&mut state).cast_signed())?;
    }
    if numbers.len() > MAX_ELEMENTS as usize {
        bail!("COUNT is at most {MAX_ELEMENTS}");
    }
    Ok(List::of_w64(numbers))
}
