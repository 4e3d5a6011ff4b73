//! Scripts run over data by their plan.
#![tactic(auto)]

mod chain;
mod finish;
mod fitting;
mod head;
mod inputs;
mod laws;
mod lines;
mod needs;
mod printed;
mod reductions;
mod run;
mod stages;
mod step;
mod steps;

pub use command_words::Settings;
pub use fitting::{FitFault, fit, over_lists};
pub use laws::each_step_makes_its_value;
pub use run::run_script;
