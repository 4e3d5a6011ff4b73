//! Output streams.
ghost use Rattle.std.specs.Prelude.{◌≡◌, ◌≤◌, None};

use outside::{Failed, Sink};
use std::io::Write;

/// A stream of the system, with the number of writes that have failed. What went out isn't told.
#[derive(Drop)]
pub struct Stream<W: Write> {
    to: W,
    faults: u64,
    ghost capped: { faults ≤ 18446744073709551615 },
}

impl<W: Write> Stream<W> {
    /// A stream that hasn't failed.
    pub fn new(to: W) -> Stream<W>
        ensures { result.faults ≡ 0 }
    {
        Stream { to, faults: 0 }
    }
}

impl<W: Write> Sink for Stream<W> {
    ghost written = { λ _. None };

    ghost faults = { λ s. s.faults };

    fn put(&mut self, bytes: &[u8]) -> Result<(), Failed> {
        if self.to.write_all(bytes).is_ok() && self.to.flush().is_ok() {
            return Ok(());
        }
        self.faults = self.faults.saturating_add(1);
        Err(Failed)
    }
}
