//! Scripts as they are written: lines and words with their places, names, numbers and functions.
#![tactic(auto)]

mod calc;
mod fault;
mod functions;
mod numbers;
mod reading;
mod scalars;
mod source;
mod sources;
mod spelled;
mod word;
mod words;

pub use fault::{LineFault, ScriptWhat, Spot};
pub use functions::function_at;
pub use reading::{at, name_at, next, nothing_more, number_at, this_at};
pub use source::SourceLine;
pub use sources::sources_of;
pub use spelled::SpelledFunction;
pub use word::Word;
