//! Data from a shelf.
ghost use Rattle.std.specs.Prelude.{◌≡◌, ◌≢◌, ◌<◌, ◌≤◌, ◌+◌, ℕ, List, [], Ok, Err, IfOk, IfErr, IfSome, IsErrOf, IsTrue, length, map};
ghost use Rattle.outside.specs.Outside.{Rose, RoseAt, NoneFell};
ghost use Rattle.data_text.specs.Words.{items_from};
ghost use Rattle.data_text.specs.Data.{sections_of, sections_at, kind_of};
ghost use Rattle.data_text.specs.Named.{section_of};
ghost use Rattle.data_text.specs.Shelves.{OthersStay, OthersStayAt};
ghost use Rattle.data_text.specs.Answered.{Answers};
ghost use Rattle.data_text.specs.Continued.{continued};

use crate::data_fault::DataFault;
use crate::parser::Parser;
use crate::reader::Reader;
use crate::sections::Sections;
use outside::Shelf;
use std::alloc::Global;

// So many bytes are asked for at once.
const BUFFER: usize = 65_536;

// So many sections may stand in one file.
const MOST_SECTIONS: u32 = 64;

// A reader that has read nothing.
fn start_reader(alloc: Global) -> Reader
    ensures meaning { (end : ℕ) (bytes : List ℕ) → continued result end bytes ≡ sections_at kind_of end 64 [] (items_from 0 0 bytes) }
    ensures at { result.at ≡ 0 }
{
    let parser = Parser::new(alloc, MOST_SECTIONS);
    Reader {
        parser,
        word: Vec::new(alloc),
        at: 0,
        gap: 0,
    }
}

// The sections, where the data ends here.
fn finish(reader: Reader) -> Result<Sections, DataFault>
    ensures told { Answers (λ s. map section_of s) result (continued reader reader.at []) }
    ensures unread { IsErrOf result DataFault.Read → ⊥ }
{
    reader.finish()
}

// Reads what is left of the started name, to its end or to the first fault.
fn read_left<F: Shelf>(
    shelf: &mut F,
    mut reader: Reader,
    buf: &mut [u8],
) -> Result<Sections, DataFault>
    requires ready { IsTrue (F.ready shelf.old) }
    requires room { 0 < length buf.old }
    ensures told { IfSome (F.left shelf.old) (λ left. Answers (λ s. map section_of s) result (continued reader (reader.at + length left) left)) }
    ensures content { F.content shelf.new ≡ F.content shelf.old }
    ensures ready { F.ready shelf.new ≡ F.ready shelf.old }
    ensures started { F.started shelf.new ≡ F.started shelf.old }
    ensures cause { IsErrOf result DataFault.Read → RoseAt (F.started shelf.old) (F.faults shelf.old) (F.faults shelf.new) }
    ensures never_falls { NoneFell (F.faults shelf.old) (F.faults shelf.new) }
    ensures others { OthersStayAt (F.started shelf.old) (F.content shelf.old) (F.faults shelf.old) (F.faults shelf.new) }
{
    for _ in 0..u64::MAX {
        let Ok(n) = shelf.read(buf) else {
            return Err(DataFault::Read);
        };
        if n == 0 {
            return finish(reader);
        }
        reader.feed(&buf[..n])?;
    }
    unreachable!()
}

/// Reads the data that stands under this name: all of it, or up to its first fault, in pieces of at most 64 KiB.
///
/// Takes memory for the numbers as they come, and for one piece.
pub fn read_data<F: Shelf>(alloc: Global, shelf: &mut F, name: &str) -> Result<Sections, DataFault>
    ensures sections { IfSome (F.content shelf.old name.now) (λ bytes. IfOk result (λ s. sections_of bytes ≡ Ok (map section_of s))) }
    ensures fault { IfSome (F.content shelf.old name.now) (λ bytes. IfErr result (λ e. e ≢ DataFault.Read → e ≢ DataFault.Memory → sections_of bytes ≡ Err e)) }

    ensures content { F.content shelf.new ≡ F.content shelf.old }
    ensures cause { IsErrOf result DataFault.Read → Rose (F.faults shelf.old name.now) (F.faults shelf.new name.now) }
    ensures never_falls { NoneFell (F.faults shelf.old) (F.faults shelf.new) }
    ensures others { OthersStay (F.ready shelf.new) (F.started shelf.new) (F.content shelf.old) name.now (F.faults shelf.old) (F.faults shelf.new) }
{
    if shelf.start(name).is_err() {
        return Err(DataFault::Read);
    }
    let mut buf = vec![in alloc; 0u8; BUFFER]?;
    read_left(shelf, start_reader(alloc), &mut buf)
}
