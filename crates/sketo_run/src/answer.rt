//! From the two files of a run to its answer.
ghost use Rattle.std.specs.Prelude.{◌≡◌, Ok, IfSome, IfOk, IfErr, IsErrOf, map, true};
ghost use Rattle.outside.specs.Outside.{Rose, NoneFell};
ghost use Rattle.data_text.specs.Named.{section_of};
ghost use Rattle.script_lang.specs.Views.{statement_of};
ghost use Rattle.fuse_rewrite.specs.Meaning.{script_meaning};
ghost use Rattle.script_run.specs.Fit.{fit_of, over_lists};
ghost use Rattle.command_words.specs.Commands.{AreInRange};
ghost use Rattle.sketo_run.specs.Built.{IsBuilt};
ghost use Rattle.sketo_run.specs.Answer.{IsAnswer};
ghost use Rattle.sketo_run.specs.Causes.{IsUnfit, IsCauseOf, IsScriptOf};
ghost use Rattle.sketo_run.specs.Ends.{WhereTold};
ghost use Rattle.sketo_run.specs.Reads.{TellsStarted, OthersUnread};

use crate::scripts::built_script;
use crate::stop::Stop;
use crate::values::Values;
use command_words::Settings;
use data_text::{Sections, Shelf, read_data};
use fuse_rewrite::plan_of;
use script_lang::Script;
use script_run::{fit, run_script};
use std::alloc::{AllocError, Global};
use std::thread::Threads;
use worker_split::Gate;

// What a script prints of data that fits it.
fn values_of<R: Threads + Sync, G: Gate>(
    rt: &R,
    alloc: Global,
    script: &Script,
    sections: Sections,
    settings: Settings,
    gate: &G,
) -> Result<Values, AllocError>
    requires lists { over_lists (map statement_of script.now) ≡ true }
    requires fits { fit_of (map statement_of script.now) (map section_of sections) ≡ Ok tt }
    requires ranges { AreInRange settings }
    ensures { IfOk result (λ v. v ≡ script_meaning (map section_of sections) (map statement_of script.now)) }
{
    let plan = plan_of(alloc, script)?;
    let named = run_script(rt, alloc, script, &plan, sections, settings, gate)?;
    Ok(Values { named })
}

// What a script prints of data, where that fits it.
fn fitted<R: Threads + Sync, G: Gate>(
    rt: &R,
    alloc: Global,
    script: Script,
    sections: Sections,
    settings: Settings,
    gate: &G,
) -> Result<Values, Stop>
    requires lists { over_lists (map statement_of script) ≡ true }
    requires ranges { AreInRange settings }
    ensures fits { IfOk result (λ _. fit_of (map statement_of script) (map section_of sections) ≡ Ok tt) }
    ensures values { IfOk result (λ v. v ≡ script_meaning (map section_of sections) (map statement_of script)) }
    ensures stops { IfErr result (IsUnfit (map statement_of script) (map section_of sections)) }
{
    match fit(&script, &sections) {
        Ok(()) => Ok(values_of(rt, alloc, &script, sections, settings, gate)?),
        Err(fault) => Err(Stop::Unfit(fault, script)),
    }
}

/// The answer that a script gives on data.
pub fn answer<R: Threads + Sync, F: Shelf, G: Gate>(
    rt: &R,
    alloc: Global,
    script: &str,
    input: &str,
    settings: Settings,
    shelf: &mut F,
    gate: &G,
) -> Result<Values, Stop>
    requires ranges { AreInRange settings }
    ensures ok { IfOk result (λ a. WhereTold (F.content shelf.old) (record { script = script.now; input = input.now }) (λ s d. IsAnswer s d a)) }
    ensures form { IfSome (F.content shelf.old script.now) (λ bytes. IfErr result (λ stop. IsScriptOf stop bytes)) }
    ensures refused { IfErr result (λ stop. WhereTold (F.content shelf.old) (record { script = script.now; input = input.now }) (IsCauseOf stop)) }
    ensures built { IfSome (F.content shelf.old script.now) (λ bytes. IfOk result (λ _. IsBuilt bytes)) }
    ensures script_unread { IsErrOf result Stop.ScriptUnread → Rose (F.faults shelf.old script.now) (F.faults shelf.new script.now) }
    ensures input_unread { IsErrOf result Stop.DataUnread → Rose (F.faults shelf.old input.now) (F.faults shelf.new input.now) }
    ensures content { F.content shelf.new ≡ F.content shelf.old }
    ensures never_falls { NoneFell (F.faults shelf.old) (F.faults shelf.new) }
    ensures others { TellsStarted F.ready F.started → OthersUnread (record { script = script.now; input = input.now }) (F.content shelf.old) (F.faults shelf.old) (F.faults shelf.new) }
{
    let program = built_script(alloc, shelf, script)?;
    let sections = read_data(alloc, shelf, input)?;
    fitted(rt, alloc, program, sections, settings, gate)
}
