//! From bytes to a script.
ghost use Rattle.std.specs.Prelude.{◌≡◌, map};
ghost use Rattle.script_lang.specs.Script.{script, GivesIn};
ghost use Rattle.script_lang.specs.Views.{statement_of};

use crate::fault::ScriptFault;
use crate::program::lines_at;
use crate::script::Script;
use script_words::sources_of;
use std::alloc::Global;

/// The most bytes that a script may have.
pub const MAX_SCRIPT_BYTES: usize = 65_536;

/// The script that these bytes are, or its first fault.
///
/// Each word is looked at a fixed number of times. A name is looked for by going over the earlier
/// lines, of which a script has fewer than 5,000; so a script of short lines takes some ten million
/// comparisons of names at most. Nothing is kept on an error.
#[tactic(auto, unfolding(crate::specs::Script::script), using(crate::proofs::SoundLemmas::all_typed))]
pub fn read_script(alloc: Global, bytes: &[u8]) -> Result<Script, ScriptFault>
    ensures { GivesIn (λ s. map statement_of s) result (script bytes.now) }
{
    if bytes.len() > MAX_SCRIPT_BYTES {
        return Err(ScriptFault::Long);
    }
    let sources = sources_of(alloc, bytes)?;
    let lines = lines_at(alloc, &sources)?;
    Ok(Script::new(lines))
}
