//! Work that is cut into tickets.
ghost use Rattle.std.specs.Prelude.{◌≡◌, ℕ, ◌<◌, IfOk};

use std::alloc::{AllocError, Global};

/// Work that is cut into tickets: the numbers below `tickets`. Each ticket has an item.
pub trait Task: Sync {
    type Out: Send + Drop;

    // What an item of a ticket may be.
    ghost gives: { Self → ℕ → Self.Out → Type 0 };

    // How many tickets there are.
    ghost count: { Self → ℕ };

    /// How many tickets there are.
    fn tickets(&self) -> u32
        ensures { result ≡ count self.now };

    /// The item of a ticket. Several workers call it at a time, each ticket once.
    fn run(&self, alloc: Global, ticket: u32) -> Result<Self::Out, AllocError>
        requires { ticket < count self.now }
        ensures { IfOk result (gives self.now ticket) };
}
