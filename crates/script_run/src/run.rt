//! Scripts over lists, run by their plan.

ghost use Rattle.std.specs.Prelude.{◌≡◌, ◌≤◌, map, true, IfOk, Ok};
ghost use Rattle.worker_split.specs.declared.board.TheConstants.{MAX_WORKERS};
ghost use Rattle.data_text.specs.Named.{section_of};
ghost use Rattle.script_lang.specs.Views.{statement_of};
ghost use Rattle.fuse_rewrite.specs.Steps.{steps_of};
ghost use Rattle.fuse_rewrite.specs.Meaning.{script_meaning};
ghost use Rattle.script_run.specs.Fit.{fit_of, over_lists};

use crate::inputs::inputs_of;
use crate::printed::printed;
use crate::steps::run_steps;
use command_words::Settings;
use data_text::{Named, Sections};
use fuse_rewrite::{Plan, each_step_is_linked};
use script_lang::Script;
use std::alloc::{AllocError, Global};
use std::thread::Threads;
use worker_split::Gate;

/// Runs a script over lists by its plan: the printed names with their values, in the order of the
/// print lines.
pub fn run_script<R: Threads + Sync, G: Gate>(
    rt: &R,
    alloc: Global,
    script: &Script,
    plan: &Plan,
    sections: Sections,
    settings: Settings,
    gate: &G,
) -> Result<Vec<Named>, AllocError>
    requires fits { fit_of (map statement_of script.now) (map section_of sections) ≡ Ok tt }
    requires lists { over_lists (map statement_of script.now) ≡ true }
    requires plan { plan.now ≡ steps_of (map statement_of script.now) }
    requires block { 1 ≤ settings.block }
    requires some_workers { 1 ≤ settings.workers }
    requires few_workers { settings.workers ≤ MAX_WORKERS }
    ensures { IfOk result (λ v. v.items ≡ script_meaning (map section_of sections) (map statement_of script.now)) }
{
    each_step_is_linked();
    let lines = script.as_slice();
    let mut values = inputs_of(alloc, lines, sections)?;
    let table = values.as_mut_slice();
    run_steps(rt, alloc, lines, table, plan.steps(), settings.cut(), gate)?;
    printed(alloc, lines, table)
}
