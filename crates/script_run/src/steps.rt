//! All steps of a plan, one after another.

ghost use Rattle.std.specs.Prelude.{◌≡◌, [], length, map, List, OnOk};
ghost use Rattle.data_text.specs.Data.{Section};
ghost use Rattle.script_lang.specs.Views.{statement_of};
ghost use Rattle.script_lang.specs.Sound.{IsTypedScript, AreSmallLines};
ghost use Rattle.fuse_rewrite.specs.Chains.{AreRunnable};
ghost use Rattle.script_run.specs.Needs.{Holds};

use crate::needs::drop_taken;
use crate::step::run_step;
use data_text::Value;
use fuse_rewrite::Step;
use list_skel::Cut;
use script_lang::Line;
use std::alloc::{AllocError, Global};
use std::thread::Threads;
use worker_split::Gate;

/// Runs the steps in order over a table that holds the values of inputs. After each step what it took
/// is dropped, unless it is printed or a later step takes it. Whether so is looked up among all lines
/// and later steps, in time in proportion to the lines times the steps.
pub(crate) fn run_steps<R: Threads + Sync, G: Gate>(
    rt: &R,
    alloc: Global,
    lines: &[Line],
    table: &mut [Option<Value>],
    steps: &[Step],
    cut: Cut,
    gate: &G,
) -> Result<(), AllocError>
    requires typed { IsTypedScript (map statement_of lines.now) }
    requires small { AreSmallLines (map statement_of lines.now) }
    requires linked { AreRunnable (map statement_of lines.now) steps.now }
    requires long { length table.old ≡ length lines.now }
    requires held { (sections : List Section) × Holds (map statement_of lines.now) [] steps.now sections table.old }
    ensures { (sections : List Section) → Holds (map statement_of lines.now) [] steps.now sections table.old → OnOk result (Holds (map statement_of lines.now) steps.now [] sections table.new) }
{
    for (i, step) in steps.iter().enumerate() {
        run_step(rt, alloc, lines, table, step, cut, gate)?;
        drop_taken(lines, table, step, &steps[i + 1..]);
    }
    Ok(())
}
