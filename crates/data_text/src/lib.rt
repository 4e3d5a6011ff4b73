//! Data and its text: named values read from a shelf, and printed to a sink.
#![tactic(auto)]

mod data_fault;
mod front;
mod kept;
mod laws;
mod numbers;
mod parser;
mod print;
mod reader;
mod reading;
mod runs;
mod sections;
mod stage;
mod value;

pub use data_fault::DataFault;
pub use laws::{data_is_what_is_written, fault_is_first};
pub use outside::{Failed, MemShelf, MemSink, Shelf, Sink, SureShelf};
pub use plain_text::{Name, Outlet, is_name};
pub use print::{write_value, write_values};
pub use reading::read_data;
pub use sections::Sections;
pub use value::{Named, Value};
