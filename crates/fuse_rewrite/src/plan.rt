//! Plans.
ghost use Rattle.std.specs.Prelude.{◌≡◌, ◌<◌, ◌++◌, length, map, IfOk, OnOk};
ghost use Rattle.std.specs.Option.{option_to_list};
ghost use Rattle.script_lang.specs.Views.{statement_of};
ghost use Rattle.fuse_rewrite.specs.Uses.{Uses};
ghost use Rattle.fuse_rewrite.specs.Steps.{step_at, steps_of, has_step};
ghost use Rattle.fuse_rewrite.specs.Demands.{AreDemands};

use crate::demand::{Demand, demand_at, demands_of};
use crate::fusing::{chain_to, is_kept};
use crate::skeleton::arguments_of;
use crate::step::Step;
use script_lang::{Line, Script};
use std::alloc::{AllocError, Global};
use std::marker::Model;

/// The steps of a script, in its order: one for each let line whose name is kept. It is seen as
/// their list.
#[derive(Drop)]
pub struct Plan {
    steps: Vec<Step>,
}

impl Model for Plan {
    ghost use Rattle.std.specs.Prelude.{List};
    ghost use Rattle.fuse_rewrite.specs.Steps.{Kept};

    ghost Value = { List Kept };

    ghost view = { λ p. p.steps.items };
}

impl Plan {
    pub fn steps(&self) -> &[Step]
        ensures { result.now ≡ self.now }
    {
        &self.steps
    }

    /// Whether a step has the let line of this number.
    pub fn kept(&self, line: u32) -> bool
        ensures { result ≡ has_step self.now line }
    {
        self.steps.iter().any(|step| step.line() == line)
    }
}

// The step of the line of this number, if it is kept.
fn step_at(
    alloc: Global,
    lines: &[Line],
    demands: &[Demand],
    n: u32,
    line: &Line,
) -> Result<Option<Step>, AllocError>
    requires within { n < length lines.now }
    requires same { length demands.now ≡ length lines.now }
    ensures { (us : Uses) → AreDemands us demands.now → IfOk result (λ s. option_to_list s ≡ step_at (map statement_of lines.now) us n (statement_of line.now)) }
{
    match line {
        Line::Let { bound, skel } => {
            if is_kept(bound, skel, demand_at(demands, n as usize)) {
                let chain = chain_to(alloc, lines, demands, n, arguments_of(skel).last)?;
                Ok(Some(Step::new(n, chain)))
            } else {
                Ok(None)
            }
        }
        Line::Input { .. } | Line::Print { .. } => Ok(None),
    }
}

// Adds the step, if there is one.
fn add_step(steps: &mut Vec<Step>, step: Option<Step>) -> Result<(), AllocError>
    ensures { OnOk result (steps.new.items ≡ steps.old.items ++ option_to_list step) }
{
    match step {
        None => Ok(()),
        Some(step) => {
            steps.push(step)?;
            Ok(())
        }
    }
}

/// The plan of a script, in time and memory in proportion to its lines: uses are counted from the
/// last line up, and steps made from the first line down.
pub fn plan_of(alloc: Global, script: &Script) -> Result<Plan, AllocError>
    ensures { IfOk result (λ p. p ≡ steps_of (map statement_of script.now)) }
{
    let demands = demands_of(alloc, script)?;
    let lines = script.as_slice();
    let mut steps = Vec::new(alloc);
    for n in 0..script.lines() {
        let step = step_at(alloc, lines, &demands, n, &lines[n as usize])?;
        add_step(&mut steps, step)?;
    }
    Ok(Plan { steps })
}
