//! Which names of a script are kept, and the text of its plan.
#![tactic(auto)]

mod chains;
mod demand;
mod function_text;
mod fusing;
mod plan;
mod plan_text;
mod skeleton;
mod skeleton_text;
mod step;
mod words;

pub use chains::each_step_is_linked;
pub use plan::{Plan, plan_of};
pub use plan_text::write_plan;
pub use step::Step;
