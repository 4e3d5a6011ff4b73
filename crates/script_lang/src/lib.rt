//! Scripts as they are meant: each line with what its name stands for, or the first fault.
#![tactic(auto)]

mod checks;
mod elementwise;
mod fault;
mod form;
mod grammar;
mod head;
mod kind;
mod known;
mod line;
mod meaning;
mod names;
mod op;
mod op_types;
mod operators;
mod program;
mod reading;
mod reductions;
mod script;
mod skel;
mod skeletons;
mod slots;
mod tables;
mod types_text;

pub use fault::ScriptFault;
pub use head::Head;
pub use kind::Kind;
pub use line::{Bound, Line};
pub use op::Op;
pub use reading::{MAX_SCRIPT_BYTES, read_script};
pub use script::Script;
pub use script_words::ScriptWhat;
pub use skel::{Drop2, Fold, Skel};
pub use types_text::write_types;
