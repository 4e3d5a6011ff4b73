//! What is told of a script alone: the types of its names, or its plan.
ghost use Rattle.std.specs.Prelude.{◌≡◌, ◌⊎◌, IfSome, IfOk, IfErr, IsErr, IsErrOf};
ghost use Rattle.outside.specs.Outside.{Rose, NoneFell, OthersKept};
ghost use Rattle.script_lang.specs.Script.{script as language};
ghost use Rattle.sketo_run.specs.Accounts.{account_text, IsAccount};
ghost use Rattle.sketo_run.specs.Causes.{IsRefusalOf, IsOfScript};
ghost use Rattle.sketo_run.specs.Report.{IsReported, read_failed, write_failed, no_memory};
ghost use Rattle.sketo_run.specs.Ends.{IsTold, IsToldInPart, IsScriptRefused, IsTellingStatus, IsRefusedStatus, IsTellingFaultless};
ghost use Rattle.sketo_run.specs.Reads.{TellsStarted};

use crate::planned::Planned;
use crate::print::{Answer, print};
use crate::report::report_stop;
use crate::scripts::script_in;
use crate::stop::Stop;
use data_text::{Failed, Outlet, Shelf, Sink};
use script_lang::{Script, write_types};
use std::alloc::Global;

/// What is told of a script.
#[derive(Clone, Copy)]
pub enum Told {
    /// The types of its names.
    Types,
    /// Which of its names are built, and by what.
    Plan,
}

/// A script with what is told of it.
#[derive(Drop)]
pub enum Account {
    Types(Script),
    Plan(Planned),
}

impl Answer for Account {
    ghost use Rattle.sketo_run.specs.Accounts.{account_text};

    ghost text = { account_text };

    fn write<O: Sink>(&self, out: &mut Outlet, sink: &mut O) -> Result<(), Failed> {
        match self {
            Account::Types(script) => write_types(script, out, sink),
            Account::Plan(planned) => planned.write(out, sink),
        }
    }
}

// What is told of the script that a file holds.
fn account_of<F: Shelf>(
    alloc: Global,
    what: Told,
    shelf: &mut F,
    name: &str,
) -> Result<Account, Stop>
    ensures told { IfSome (F.content shelf.old name.now) (λ bytes. IfOk result (λ a. IsAccount what bytes (account_text a))) }
    ensures refused { IfSome (F.content shelf.old name.now) (λ bytes. IfErr result (λ stop. IsRefusalOf stop bytes)) }
    ensures script_alone { IfErr result IsOfScript }
    ensures unread { IsErrOf result Stop.ScriptUnread → Rose (F.faults shelf.old name.now) (F.faults shelf.new name.now) }
    ensures content { F.content shelf.new ≡ F.content shelf.old }
    ensures never_falls { NoneFell (F.faults shelf.old) (F.faults shelf.new) }
    ensures others { TellsStarted F.ready F.started → OthersKept (F.content shelf.old) name.now (F.faults shelf.old) (F.faults shelf.new) }
{
    let script = script_in(alloc, shelf, name)?;
    match what {
        Told::Types => Ok(Account::Types(script)),
        Told::Plan => Ok(Account::Plan(Planned::of(alloc, script)?)),
    }
}

/// Tells of a script: prints the types of its names or its plan to `out`, or one line to `err`. It answers
/// the status.
pub fn tell<F: Shelf, O: Sink, E: Sink>(
    alloc: Global,
    what: Told,
    script: &str,
    shelf: &mut F,
    out: &mut O,
    err: &mut E,
) -> u8
    ensures statuses { IsTellingStatus result }

    ensures answered { result ≡ 0 → IfSome (F.content shelf.old script.now) (IsTold what (O.written out.old) (O.written out.new)) }
    ensures quiet { result ≡ 0 → err.new ≡ err.old }

    ensures script_refused { result ≡ 3 → IfSome (F.content shelf.old script.now) (IsScriptRefused script.now (E.written err.old) (E.written err.new) (E.faults err.old) (E.faults err.new)) }

    ensures refused_script { IfSome (F.content shelf.old script.now) (λ bytes. IsErr (language bytes) → IsRefusedStatus result) }

    ensures read_failed { result ≡ 5 → Rose (F.faults shelf.old script.now) (F.faults shelf.new script.now)
        × IsReported (read_failed script.now) (E.written err.old) (E.written err.new) (E.faults err.old) (E.faults err.new) }

    ensures write_failed { result ≡ 6 → Rose (O.faults out.old) (O.faults out.new) }
    ensures in_part { result ≡ 6 → IfSome (F.content shelf.old script.now) (IsToldInPart what (O.written out.old) (O.written out.new)) }
    ensures write_line { result ≡ 6 → IsReported write_failed (E.written err.old) (E.written err.new) (E.faults err.old) (E.faults err.new) }

    ensures memory_line { result ≡ 7 → IsReported no_memory (E.written err.old) (E.written err.new) (E.faults err.old) (E.faults err.new) }

    ensures complete { IsTellingFaultless (F.content shelf.old) script.now (F.faults shelf.old) (F.faults shelf.new) (O.faults out.old) (O.faults out.new) → (result ≡ 0) ⊎ (result ≡ 7) }

    ensures unwritten { (result ≡ 3) ⊎ ((result ≡ 5) ⊎ (result ≡ 7)) → out.new ≡ out.old }
    ensures content { F.content shelf.new ≡ F.content shelf.old }
    ensures never_falls { NoneFell (F.faults shelf.old) (F.faults shelf.new) }
    ensures others { TellsStarted F.ready F.started → OthersKept (F.content shelf.old) script.now (F.faults shelf.old) (F.faults shelf.new) }
{
    match account_of(alloc, what, shelf, script) {
        Ok(account) => print(out, err, &account).code(),
        Err(stop) => {
            report_stop(err, &stop, script, "");
            stop.status().code()
        }
    }
}
