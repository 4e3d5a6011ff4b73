//! Why bytes are no script.
ghost use Rattle.std.specs.Prelude.{◌≡◌};
ghost use Rattle.script_lang.specs.declared.fault.ScriptFault.TheVariants.{Memory};

use script_words::ScriptWhat;
use std::alloc::{AllocError, AllocFailed};
use thiserror::Error;

/// Why bytes are no script.
#[derive(Clone, Copy, Debug, PartialEq, Eq, Error)]
pub enum ScriptFault {
    /// There are more than 65,536 bytes.
    #[error("the script is too long")]
    Long,
    /// The first fault. Lines and columns count from 1, columns by bytes.
    #[error("line {line}, column {column}: {what:?}")]
    At {
        line: u32,
        column: u32,
        what: ScriptWhat,
    },
    /// Want of memory.
    #[error("out of memory")]
    Memory,
}

impl From<AllocError> for ScriptFault {
    ghost from_gives = { λ _ e. e ≡ Memory };

    fn from(_e: AllocError) -> ScriptFault {
        ScriptFault::Memory
    }
}

impl<T: Drop> From<AllocFailed<T>> for ScriptFault {
    ghost from_gives = { λ _ e. e ≡ Memory };

    fn from(_e: AllocFailed<T>) -> ScriptFault {
        ScriptFault::Memory
    }
}
