//! The law of steps, over the definitions.

ghost use Rattle.std.specs.Prelude.{map};
ghost use Rattle.script_lang.specs.Views.{statement_of};
ghost use Rattle.script_run.specs.Laws.{EachStepMakesItsValue};

use fuse_rewrite::each_step_is_linked;
use script_lang::Script;

/// Each step of a script's plan makes what its name stands for: its skeleton over its pipe, which
/// begins with the values of inputs and of kept names. It does nothing: its clause is for readers of
/// plans.
#[inline(always)]
pub fn each_step_makes_its_value(script: &Script)
    ensures { EachStepMakesItsValue (map statement_of script.now) }
{
    each_step_is_linked();
    let _lines = script.as_slice();
}
