//! The words of the command line: a command with its operands and settings, or why they are refused.
#![tactic(auto)]

mod command;
mod command_line;
mod given;
mod item;
mod number;
mod operands;
mod refusal;
mod settings;

pub use command::{Command, RunFiles};
pub use command_line::read_words;
pub use refusal::{Refusal, WordFault};
pub use settings::Settings;
