//! Work that is cut into tickets, which workers draw from one shared word.
//!
//! A `Board` deals the numbers below n to its passes, each number to one pass and once. One draw is
//! one `fetch_add`. `run_tasks` has workers draw tickets, run the task at each, and answers one item
//! per ticket, in the order of the tickets.
#![tactic(auto)]

mod board;
mod crew;
mod cut;
mod gate;
mod rule;
mod schedule;
mod slots;
mod task;

pub use board::{Board, MAX_WORKERS, Pass};
pub use crew::run_tasks;
pub use cut::Cut;
pub use gate::{Gate, OpenGate};
pub use schedule::each_schedule_deals;
pub use task::Task;
