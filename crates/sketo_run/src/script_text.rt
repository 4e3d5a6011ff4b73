//! The bytes of a script.
ghost use Rattle.std.specs.Prelude.{◌≡◌, IfSome, IfOk, IfErr, IsErrOf, take};
ghost use Rattle.outside.specs.Outside.{Rose, NoneFell, OthersKept};
ghost use Rattle.sketo_run.specs.Causes.{IsReadStop};
ghost use Rattle.sketo_run.specs.Reads.{TellsStarted};

use crate::stop::Stop;
use data_text::Shelf;
use std::alloc::Global;

// The most bytes that are read: as many as a script may have, and one more.
const MOST: usize = 65_537;

/// The front of a file, of at most 65,537 bytes.
pub fn script_text<F: Shelf>(alloc: Global, shelf: &mut F, name: &str) -> Result<Vec<u8>, Stop>
    ensures told { IfSome (F.content shelf.old name.now) (λ all. IfOk result (λ v. v.items ≡ take 65537 all)) }
    ensures content { F.content shelf.new ≡ F.content shelf.old }
    ensures never_falls { NoneFell (F.faults shelf.old) (F.faults shelf.new) }
    ensures others { TellsStarted F.ready F.started → OthersKept (F.content shelf.old) name.now (F.faults shelf.old) (F.faults shelf.new) }
    ensures unread { IsErrOf result Stop.ScriptUnread → Rose (F.faults shelf.old name.now) (F.faults shelf.new name.now) }
    ensures stops { IfErr result IsReadStop }
{
    if shelf.start(name).is_err() {
        return Err(Stop::ScriptUnread);
    }
    let mut bytes = Vec::new(alloc);
    let mut buf = [0u8; 4096];
    for _ in 0..65_538u32 {
        let room = (MOST - bytes.len()).min(4096);
        if room == 0 {
            return Ok(bytes);
        }
        let Ok(n) = shelf.read(&mut buf[..room]) else {
            return Err(Stop::ScriptUnread);
        };
        if n == 0 {
            return Ok(bytes);
        }
        bytes.extend_from_slice(&buf[..n])?;
    }
    unreachable!()
}
