//! A task whose tickets take as long as one asks.
ghost use Rattle.std.specs.Prelude.{⊤};

use std::alloc::{AllocError, Global};
use worker_split::Task;

/// Each ticket takes so many turns of arithmetic; with none its item is the ticket.
#[derive(Drop)]
pub struct Turns {
    pub tickets: u32,
    pub turns: u32,
}

impl Task for Turns {
    type Out = u64;

    ghost gives = { λ _ _ _. ⊤ };

    ghost count = { λ task. task.tickets };

    fn tickets(&self) -> u32 {
        self.tickets
    }

    fn run(&self, _alloc: Global, ticket: u32) -> Result<u64, AllocError> {
        let mut x = u64::from(ticket);
        for i in 0..self.turns {
            x = x
                .wrapping_mul(6_364_136_223_846_793_005)
                .wrapping_add(u64::from(i))
                ^ (x >> 29);
        }
        Ok(x)
    }
}
