//! A run: a script over data.
ghost use Rattle.std.specs.Prelude.{◌≡◌, ◌⊎◌, ℕ, List, IfSome, IsErr};
ghost use Rattle.outside.specs.Outside.{Rose, NoneFell};
ghost use Rattle.script_lang.specs.Script.{script as language};
ghost use Rattle.sketo_run.specs.Built.{IsNotBuilt};
ghost use Rattle.sketo_run.specs.Report.{IsReported, read_failed, write_failed, no_memory, not_built};
ghost use Rattle.command_words.specs.Commands.{Files, AreInRange};
ghost use Rattle.sketo_run.specs.Ends.{WhereTold, IsPrinted, IsPrintedInPart, IsScriptRefused, IsDataRefused, IsUnread, IsRunStatus, IsRefusedStatus, IsUnbuiltStatus, IsFaultless};
ghost use Rattle.sketo_run.specs.Reads.{TellsStarted, OthersUnread};

use crate::answer::answer;
use crate::print::print;
use crate::report::report_stop;
use command_words::Settings;
use data_text::{Shelf, Sink};
use std::alloc::Global;
use std::thread::Threads;
use worker_split::Gate;

/// Runs a script over data: prints the answer to `out`, or one line to `err`. It answers the status.
pub fn run<R: Threads + Sync, F: Shelf, O: Sink, E: Sink, G: Gate>(
    rt: &R,
    alloc: Global,
    script: &str,
    input: &str,
    settings: Settings,
    shelf: &mut F,
    out: &mut O,
    err: &mut E,
    gate: &G,
) -> u8
    requires ranges { AreInRange settings }
    ensures statuses { IsRunStatus result }

    ensures answered { let files : Files = record { script = script.now; input = input.now } in
        result ≡ 0 → WhereTold (F.content shelf.old) files (IsPrinted (O.written out.old) (O.written out.new)) }
    ensures quiet { result ≡ 0 → err.new ≡ err.old }

    ensures script_refused { result ≡ 3 → IfSome (F.content shelf.old script.now) (IsScriptRefused script.now (E.written err.old) (E.written err.new) (E.faults err.old) (E.faults err.new)) }

    ensures refused_script { IfSome (F.content shelf.old script.now) (λ bytes. IsErr (language bytes) → IsRefusedStatus result) }

    ensures data_refused { let files : Files = record { script = script.now; input = input.now } in
        result ≡ 4 → WhereTold (F.content shelf.old) files (IsDataRefused input.now (E.written err.old) (E.written err.new) (E.faults err.old) (E.faults err.new)) }

    ensures read_failed { let files : Files = record { script = script.now; input = input.now } in
        result ≡ 5 → (file : List ℕ)
        × IsUnread (F.content shelf.old) files (F.faults shelf.old) (F.faults shelf.new) file
        × IsReported (read_failed file) (E.written err.old) (E.written err.new) (E.faults err.old) (E.faults err.new) }

    ensures write_failed { result ≡ 6 → Rose (O.faults out.old) (O.faults out.new) }
    ensures in_part { let files : Files = record { script = script.now; input = input.now } in
        result ≡ 6 → WhereTold (F.content shelf.old) files (IsPrintedInPart (O.written out.old) (O.written out.new)) }
    ensures write_line { result ≡ 6 → IsReported write_failed (E.written err.old) (E.written err.new) (E.faults err.old) (E.faults err.new) }

    ensures memory_line { result ≡ 7 → IsReported no_memory (E.written err.old) (E.written err.new) (E.faults err.old) (E.faults err.new) }

    ensures not_built { result ≡ 8 → IfSome (F.content shelf.old script.now) IsNotBuilt }
    ensures unbuilt_script { IfSome (F.content shelf.old script.now) (λ bytes. IsNotBuilt bytes → IsUnbuiltStatus result) }
    ensures not_built_line { result ≡ 8 → IsReported not_built (E.written err.old) (E.written err.new) (E.faults err.old) (E.faults err.new) }

    ensures complete { let files : Files = record { script = script.now; input = input.now } in
        IsFaultless (F.content shelf.old) files (F.faults shelf.old) (F.faults shelf.new) (O.faults out.old) (O.faults out.new) → (result ≡ 0) ⊎ (result ≡ 7) }

    ensures unwritten { (result ≡ 3) ⊎ ((result ≡ 4) ⊎ ((result ≡ 5) ⊎ ((result ≡ 7) ⊎ (result ≡ 8)))) → out.new ≡ out.old }
    ensures content { F.content shelf.new ≡ F.content shelf.old }
    ensures never_falls { NoneFell (F.faults shelf.old) (F.faults shelf.new) }
    ensures others { TellsStarted F.ready F.started → OthersUnread (record { script = script.now; input = input.now }) (F.content shelf.old) (F.faults shelf.old) (F.faults shelf.new) }
{
    match answer(rt, alloc, script, input, settings, shelf, gate) {
        Ok(answer) => print(out, err, &answer).code(),
        Err(stop) => {
            report_stop(err, &stop, script, input);
            stop.status().code()
        }
    }
}
