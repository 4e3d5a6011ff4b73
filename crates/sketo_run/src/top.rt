//! The top call.
ghost use Rattle.std.specs.Prelude.{◌≡◌, ◌⊎◌, ℕ, List, None, IfErr, IfSome, IsOk, IsErr, IsSomeAnd};
ghost use Rattle.outside.specs.Outside.{Rose, NoneFell, OthersKept};
ghost use Rattle.command_words.specs.Words.{command_line, run_files, script_file, texts_of};
ghost use Rattle.sketo_run.specs.Tellings.{telling};
ghost use Rattle.script_lang.specs.Script.{script as language};
ghost use Rattle.command_words.specs.Refusals.{refusal_line};
ghost use Rattle.sketo_run.specs.Built.{IsNotBuilt};
ghost use Rattle.sketo_run.specs.Report.{IsReported, read_failed, write_failed, no_memory, not_built};
ghost use Rattle.sketo_run.specs.Ends.{WhereTold, IsPrinted, IsPrintedInPart, IsTold, IsToldInPart, IsScriptRefused, IsDataRefused, IsUnread, IsStatus, IsRefusedStatus, IsUnbuiltStatus, IsFaultless, IsTellingFaultless};
ghost use Rattle.sketo_run.specs.Reads.{TellsStarted, OthersUnread};

use crate::report::{report_refusal, report_stop};
use crate::run::run;
use crate::status::Status;
use crate::stop::Stop;
use crate::telling::{Told, tell};
use command_words::{Command, read_words};
use data_text::{Shelf, Sink};
use std::alloc::Global;
use std::thread::Threads;
use worker_split::Gate;

/// All that the program does. `words` are those after the program's name; what is printed goes to `out`, and
/// one line to `err` where there is no answer. It answers the status that the program ends with.
///
/// The order is: the words, the reads of the script, the script, the reads and the form of the data, the
/// name, and then the writing. Memory is taken in proportion to the data; the words and printing take none.
pub fn sketo<R: Threads + Sync, F: Shelf, O: Sink, E: Sink, G: Gate>(
    rt: &R,
    alloc: Global,
    words: &[String],
    shelf: &mut F,
    out: &mut O,
    err: &mut E,
    gate: &G,
) -> u8
    ensures statuses { IsStatus result }

    ensures refused { IfErr (command_line (texts_of words.now)) (λ refusal. (result ≡ 2)
        × IsReported (refusal_line refusal) (E.written err.old) (E.written err.new) (E.faults err.old) (E.faults err.new)) }
    ensures only_refused { result ≡ 2 → IsErr (command_line (texts_of words.now)) }

    ensures answered { result ≡ 0 → IsSomeAnd (run_files (texts_of words.now)) (λ files.
        WhereTold (F.content shelf.old) files (IsPrinted (O.written out.old) (O.written out.new)))
        ⊎ IsSomeAnd (telling (texts_of words.now)) (λ t.
        IfSome (F.content shelf.old t.script) (IsTold t.what (O.written out.old) (O.written out.new))) }
    ensures quiet { result ≡ 0 → err.new ≡ err.old }

    ensures script_refused { result ≡ 3 → IsSomeAnd (script_file (texts_of words.now)) (λ script.
        IfSome (F.content shelf.old script) (IsScriptRefused script (E.written err.old) (E.written err.new) (E.faults err.old) (E.faults err.new))) }

    ensures refused_script { IfSome (script_file (texts_of words.now)) (λ script. IfSome (F.content shelf.old script) (λ bytes. IsErr (language bytes) → IsRefusedStatus result)) }

    ensures data_refused { result ≡ 4 → IsSomeAnd (run_files (texts_of words.now)) (λ files.
        WhereTold (F.content shelf.old) files (IsDataRefused files.input (E.written err.old) (E.written err.new) (E.faults err.old) (E.faults err.new))) }

    ensures read_failed { result ≡ 5 → IsSomeAnd (run_files (texts_of words.now)) (λ files. (file : List ℕ)
        × IsUnread (F.content shelf.old) files (F.faults shelf.old) (F.faults shelf.new) file
        × IsReported (read_failed file) (E.written err.old) (E.written err.new) (E.faults err.old) (E.faults err.new))
        ⊎ IsSomeAnd (telling (texts_of words.now)) (λ t.
        Rose (F.faults shelf.old t.script) (F.faults shelf.new t.script)
        × IsReported (read_failed t.script) (E.written err.old) (E.written err.new) (E.faults err.old) (E.faults err.new)) }

    ensures write_failed { result ≡ 6 → Rose (O.faults out.old) (O.faults out.new) }
    ensures in_part { result ≡ 6 → IsSomeAnd (run_files (texts_of words.now)) (λ files.
        WhereTold (F.content shelf.old) files (IsPrintedInPart (O.written out.old) (O.written out.new)))
        ⊎ IsSomeAnd (telling (texts_of words.now)) (λ t.
        IfSome (F.content shelf.old t.script) (IsToldInPart t.what (O.written out.old) (O.written out.new))) }
    ensures write_line { result ≡ 6 → IsReported write_failed (E.written err.old) (E.written err.new) (E.faults err.old) (E.faults err.new) }

    ensures memory_line { result ≡ 7 → IsReported no_memory (E.written err.old) (E.written err.new) (E.faults err.old) (E.faults err.new) }

    ensures not_built { result ≡ 8 → IfSome (run_files (texts_of words.now)) (λ files. IfSome (F.content shelf.old files.script) IsNotBuilt) }
    ensures unbuilt_script { IfSome (run_files (texts_of words.now)) (λ files. IfSome (F.content shelf.old files.script) (λ bytes. IsNotBuilt bytes → IsUnbuiltStatus result)) }
    ensures others_not_built { IsOk (command_line (texts_of words.now)) → script_file (texts_of words.now) ≡ None → result ≡ 8 }
    ensures tellings_are_built { result ≡ 8 → telling (texts_of words.now) ≡ None }
    ensures not_built_line { result ≡ 8 → IsReported not_built (E.written err.old) (E.written err.new) (E.faults err.old) (E.faults err.new) }

    ensures complete { IfSome (run_files (texts_of words.now)) (λ files.
        IsFaultless (F.content shelf.old) files (F.faults shelf.old) (F.faults shelf.new) (O.faults out.old) (O.faults out.new) → (result ≡ 0) ⊎ (result ≡ 7)) }

    ensures complete_telling { IfSome (telling (texts_of words.now)) (λ t.
        IsTellingFaultless (F.content shelf.old) t.script (F.faults shelf.old) (F.faults shelf.new) (O.faults out.old) (O.faults out.new) → (result ≡ 0) ⊎ (result ≡ 7)) }

    ensures unwritten { (result ≡ 2) ⊎ ((result ≡ 3) ⊎ ((result ≡ 4) ⊎ ((result ≡ 5) ⊎ ((result ≡ 7) ⊎ (result ≡ 8))))) → out.new ≡ out.old }
    ensures content { F.content shelf.new ≡ F.content shelf.old }
    ensures never_falls { NoneFell (F.faults shelf.old) (F.faults shelf.new) }
    ensures others { TellsStarted F.ready F.started → IfSome (run_files (texts_of words.now)) (λ files.
        OthersUnread files (F.content shelf.old) (F.faults shelf.old) (F.faults shelf.new)) }
    ensures others_telling { TellsStarted F.ready F.started → IfSome (telling (texts_of words.now)) (λ t.
        OthersKept (F.content shelf.old) t.script (F.faults shelf.old) (F.faults shelf.new)) }
    ensures unread { script_file (texts_of words.now) ≡ None → shelf.new ≡ shelf.old }
{
    match read_words(words) {
        Ok(Command::Run(files, settings)) => run(
            rt,
            alloc,
            files.script,
            files.input,
            settings,
            shelf,
            out,
            err,
            gate,
        ),
        Ok(Command::Check(script)) => tell(alloc, Told::Types, script, shelf, out, err),
        Ok(Command::Plan(script)) => tell(alloc, Told::Plan, script, shelf, out, err),
        Ok(Command::Bridges(..) | Command::Trial(..)) => {
            report_stop(err, &Stop::NotBuilt, "", "");
            Status::NotBuilt.code()
        }
        Err(refusal) => {
            report_refusal(err, refusal);
            Status::WordsRefused.code()
        }
    }
}
