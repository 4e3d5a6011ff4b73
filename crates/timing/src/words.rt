//! The program's words.

use anyhow::Result;
use std::alloc::Global;
use std::env;
use std::env::Env;

/// The words after the program's name.
pub(crate) fn given<R: Env + AllocGlobal>(rt: &R) -> Result<Vec<String>> {
    let mut all = Vec::new(rt.alloc());
    for word in env::args(rt)?.skip(1) {
        all.push(word)?;
    }
    Ok(all)
}

/// The words as numbers.
pub(crate) fn numbers(alloc: Global, words: &[String]) -> Result<Vec<u32>> {
    let mut all = Vec::new(alloc);
    for word in words {
        all.push(number(word.as_str())?)?;
    }
    Ok(all)
}

/// A word as a number.
pub(crate) fn number(word: &str) -> Result<u32> {
    Ok(word.parse::<u32>()?)
}
