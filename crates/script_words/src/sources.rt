//! The lines of a script that say something.
ghost use Rattle.std.specs.Prelude.{◌≡◌, ◌<◌, ◌≤◌, ◌+◌, ◌-◌, ◌^◌, length, IfOk};
ghost use Rattle.script_words.specs.Lines.{sources_of};

use crate::source::SourceLine;
use crate::words::{has_words, words_of};
use std::alloc::{AllocError, Global};

/// The lines of a text that are neither empty nor comments.
pub fn sources_of<'a>(alloc: Global, bytes: &'a [u8]) -> Result<Vec<SourceLine<'a>>, AllocError>
    requires { length bytes.now < 2 ^ 32 - 1 }
    ensures value { IfOk result (λ v. v.items ≡ sources_of bytes.now) }
    ensures few { IfOk result (λ v. length v.items ≤ length bytes.now + 1) }
{
    let mut sources = Vec::new(alloc);
    let mut number = 0u32;
    for line in bytes.split(|b| *b == b'\n') {
        number += 1;
        if has_words(line) {
            sources.push(SourceLine::new(number, words_of(alloc, line)?))?;
        }
    }
    Ok(sources)
}
