//! The numbers that are summed: those that `next_linear` makes from 1 on.

use crate::numbers::next_linear;
use std::alloc::{AllocError, Global};

/// So many numbers of 64 bits.
pub(crate) fn narrow_numbers(alloc: Global, count: u32) -> Result<Vec<i64>, AllocError> {
    let mut all = Vec::new(alloc);
    let mut x: u64 = 1;
    for _ in 0..count {
        x = next_linear(x);
        all.push(x.cast_signed())?;
    }
    Ok(all)
}

/// The same numbers, kept in 128 bits.
pub(crate) fn wide_numbers(alloc: Global, count: u32) -> Result<Vec<i128>, AllocError> {
    let mut all = Vec::new(alloc);
    let mut x: u64 = 1;
    for _ in 0..count {
        x = next_linear(x);
        all.push(i128::from(x.cast_signed()))?;
    }
    Ok(all)
}
