//! Where a run reads and writes its bytes, and devices in memory that fail as they are told.
#![tactic(auto)]

mod device;
mod files;
mod mem_shelf;
mod mem_sink;
mod sure_shelf;

pub use device::{Failed, Shelf, Sink};
pub use mem_shelf::MemShelf;
pub use mem_sink::MemSink;
pub use sure_shelf::SureShelf;
