//! All that the program does: from words and files to output and a status.
#![tactic(auto)]

mod answer;
mod input_names;
mod planned;
mod print;
mod report;
mod run;
mod script_text;
mod scripts;
mod status;
mod stop;
mod telling;
mod top;
mod values;

pub use command_words::Settings;
pub use script_run::{FitFault, fit, run_script};
pub use status::Status;
pub use top::sketo;
