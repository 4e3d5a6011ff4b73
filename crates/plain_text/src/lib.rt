//! Names, numbers as words, and outlets that gather bytes into pieces for a sink.
#![tactic(auto)]

mod name;
mod outlet;

pub use name::{Name, is_name};
pub use outlet::Outlet;
pub use outside::{Failed, MemShelf, MemSink, Shelf, Sink, SureShelf};
