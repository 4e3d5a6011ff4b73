//! From a script's file to what it says.
ghost use Rattle.std.specs.Prelude.{◌≡◌, Ok, IfSome, IfOk, IfErr, IsErrOf, map, true};
ghost use Rattle.outside.specs.Outside.{Rose, NoneFell, OthersKept};
ghost use Rattle.script_lang.specs.Script.{script};
ghost use Rattle.script_lang.specs.Views.{statement_of};
ghost use Rattle.script_run.specs.Fit.{over_lists};
ghost use Rattle.sketo_run.specs.Causes.{IsRefusalOf, IsScriptOf, IsOfScript, IsEarly};
ghost use Rattle.sketo_run.specs.Reads.{TellsStarted};

use crate::script_text::script_text;
use crate::stop::Stop;
use data_text::Shelf;
use script_lang::{Script, read_script};
use script_run::over_lists;
use std::alloc::Global;

/// The script that a file holds.
pub fn script_in<F: Shelf>(alloc: Global, shelf: &mut F, name: &str) -> Result<Script, Stop>
    ensures accepted { IfSome (F.content shelf.old name.now) (λ bytes. IfOk result (λ s. script bytes ≡ Ok (map statement_of s))) }
    ensures refused { IfSome (F.content shelf.old name.now) (λ bytes. IfErr result (λ stop. IsRefusalOf stop bytes)) }
    ensures script_alone { IfErr result IsOfScript }
    ensures unread { IsErrOf result Stop.ScriptUnread → Rose (F.faults shelf.old name.now) (F.faults shelf.new name.now) }
    ensures content { F.content shelf.new ≡ F.content shelf.old }
    ensures never_falls { NoneFell (F.faults shelf.old) (F.faults shelf.new) }
    ensures others { TellsStarted F.ready F.started → OthersKept (F.content shelf.old) name.now (F.faults shelf.old) (F.faults shelf.new) }
{
    let text = script_text(alloc, shelf, name)?;
    Ok(read_script(alloc, &text)?)
}

/// The script that a file holds, where its inputs are lists.
pub fn built_script<F: Shelf>(alloc: Global, shelf: &mut F, name: &str) -> Result<Script, Stop>
    ensures accepted { IfSome (F.content shelf.old name.now) (λ bytes. IfOk result (λ s. script bytes ≡ Ok (map statement_of s))) }
    ensures lists { IfOk result (λ s. over_lists (map statement_of s) ≡ true) }
    ensures refused { IfSome (F.content shelf.old name.now) (λ bytes. IfErr result (λ stop. IsScriptOf stop bytes)) }
    ensures early { IfErr result IsEarly }
    ensures unread { IsErrOf result Stop.ScriptUnread → Rose (F.faults shelf.old name.now) (F.faults shelf.new name.now) }
    ensures content { F.content shelf.new ≡ F.content shelf.old }
    ensures never_falls { NoneFell (F.faults shelf.old) (F.faults shelf.new) }
    ensures others { TellsStarted F.ready F.started → OthersKept (F.content shelf.old) name.now (F.faults shelf.old) (F.faults shelf.new) }
{
    let script = script_in(alloc, shelf, name)?;
    if !over_lists(&script) {
        return Err(Stop::NotBuilt);
    }
    Ok(script)
}
