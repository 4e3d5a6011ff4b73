//! A script with its plan.
ghost use Rattle.std.specs.Prelude.{◌≡◌, ◌≤◌, map, IfOk, OnOk, OnErr};
ghost use Rattle.plain_text.specs.Given.{IsGiven, IsCutOff};
ghost use Rattle.script_lang.specs.Views.{statement_of};
ghost use Rattle.fuse_rewrite.specs.Steps.{steps_of};
ghost use Rattle.fuse_rewrite.specs.PlanText.{plan_text};

use data_text::{Failed, Outlet, Sink};
use fuse_rewrite::{Plan, plan_of, write_plan};
use script_lang::Script;
use std::alloc::{AllocError, Global};

/// A script and its plan.
#[derive(Drop)]
pub struct Planned {
    script: Script,
    plan: Plan,
    ghost whole: { plan ≡ steps_of (map statement_of script) },
}

impl Planned {
    /// The script with the plan that is made of it.
    pub fn of(alloc: Global, script: Script) -> Result<Planned, AllocError>
        ensures { IfOk result (λ p. p.script ≡ script) }
    {
        let plan = plan_of(alloc, &script)?;
        Ok(Planned { script, plan })
    }

    /// Gives the text of the plan.
    pub fn write<O: Sink>(&self, out: &mut Outlet, sink: &mut O) -> Result<(), Failed>
        ensures given { OnOk result (IsGiven (plan_text (map statement_of self.now.script)) out.old out.new (O.written sink.old) (O.written sink.new)) }
        ensures cut_off { OnErr result (IsCutOff (plan_text (map statement_of self.now.script)) out.old out.new (O.written sink.old) (O.written sink.new) (O.faults sink.old) (O.faults sink.new)) }
        ensures never_falls { O.faults sink.old ≤ O.faults sink.new }
    {
        write_plan(&self.script, &self.plan, out, sink)
    }
}
