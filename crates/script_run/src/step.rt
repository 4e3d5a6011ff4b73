//! Steps of a plan.

ghost use Rattle.std.specs.Prelude.{◌≡◌, ◌<◌, map, length, slice_set, Some, IfOk, OnOk};
ghost use Rattle.script_lang.specs.Views.{statement_of};
ghost use Rattle.script_run.specs.Runs.{first_line, IsRunnable, value_of_step};

use crate::chain::pass_chain;
use crate::finish::finish;
use crate::head::pipe_of;
use crate::lines::{bound_at, skeleton_at};
use data_text::Value;
use fuse_rewrite::Step;
use list_skel::Cut;
use script_lang::Line;
use std::alloc::{AllocError, Global};
use std::thread::Threads;
use worker_split::Gate;

/// The line at whose arguments the step's pipe begins.
pub(crate) fn first_line(step: &Step) -> u32
    ensures { result ≡ first_line step.now.line step.now.chain }
{
    match step.chain().first() {
        None => step.line(),
        Some(n) => *n,
    }
}

// What a step makes of the values in the table.
fn made<R: Threads + Sync, G: Gate>(
    rt: &R,
    alloc: Global,
    lines: &[Line],
    table: &[Option<Value>],
    step: &Step,
    cut: Cut,
    gate: &G,
) -> Result<Value, AllocError>
    requires { IsRunnable (map statement_of lines.now) table.now step.now }
    ensures { IfOk result (λ v. v ≡ value_of_step (map statement_of lines.now) table.now step.now) }
{
    let mut pipe = pipe_of(alloc, table, skeleton_at(lines, first_line(step)));
    pass_chain(alloc, &mut pipe, lines, step.chain())?;
    let bound = bound_at(lines, step.line());
    let skel = skeleton_at(lines, step.line());
    finish(rt, alloc, &mut pipe, bound, skel, cut, gate)
}

/// Runs a step, and puts what it makes into the table.
pub(crate) fn run_step<R: Threads + Sync, G: Gate>(
    rt: &R,
    alloc: Global,
    lines: &[Line],
    table: &mut [Option<Value>],
    step: &Step,
    cut: Cut,
    gate: &G,
) -> Result<(), AllocError>
    requires runnable { IsRunnable (map statement_of lines.now) table.old step.now }
    requires within { step.now.line < length table.old }
    ensures { OnOk result (table.new ≡ slice_set table.old step.now.line (Some (value_of_step (map statement_of lines.now) table.old step.now))) }
{
    let value = made(rt, alloc, lines, table, step, cut, gate)?;
    table[step.line() as usize] = Some(value);
    Ok(())
}
