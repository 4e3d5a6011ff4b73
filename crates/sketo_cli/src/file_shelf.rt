//! The files of the system.
ghost use Rattle.std.specs.Prelude.{◌≡◌, ◌≤◌, None, IfOk, true};

use outside::{Failed, Shelf};
use std::fs::File;
use std::io;
use std::io::Read;
use std::rt::Stdin;

/// Where bytes are read from.
#[derive(Drop)]
enum Source {
    Nothing,
    Opened(File),
    Input(Stdin),
}

/// Files by their names, and standard input as `-`, with the number of calls that have failed. What the
/// files hold and which one is started isn't told.
#[derive(Drop)]
pub struct FileShelf<'r> {
    rt: &'r HostRuntime,
    source: Source,
    faults: u64,
    ghost capped: { faults ≤ 18446744073709551615 },
}

impl<'r> FileShelf<'r> {
    ghost use Rattle.sketo_cli.specs.Source.{is_started};

    /// A shelf that has started nothing.
    pub fn new(rt: &'r HostRuntime) -> FileShelf<'r>
        ensures { result.faults ≡ 0 }
    {
        FileShelf {
            rt,
            source: Source::Nothing,
            faults: 0,
        }
    }

    // What a name is read from.
    fn open(&self, name: &str) -> io::Result<Source>
        ensures { IfOk result (λ s. is_started s ≡ true) }
    {
        if name == "-" {
            return Ok(Source::Input(self.rt.stdin()));
        }
        Ok(Source::Opened(File::open(self.rt, name)?))
    }
}

impl Shelf for FileShelf<'_> {
    ghost use Rattle.std.specs.Prelude.{None};
    ghost use Rattle.sketo_cli.specs.Source.{is_started};

    ghost content = { λ _ _. None };

    ghost ready = { λ s. is_started s.source };

    ghost started = { λ _. None };

    ghost left = { λ _. None };

    ghost faults = { λ s _. s.faults };

    fn start(&mut self, name: &str) -> Result<(), Failed> {
        match self.open(name) {
            Ok(source) => {
                self.source = source;
                Ok(())
            }
            Err(_) => {
                self.source = Source::Nothing;
                self.faults = self.faults.saturating_add(1);
                Err(Failed)
            }
        }
    }

    fn read(&mut self, buf: &mut [u8]) -> Result<usize, Failed> {
        let count = match &mut self.source {
            Source::Opened(file) => file.read(buf),
            Source::Input(input) => input.read(buf),
            Source::Nothing => unreachable!(),
        };
        match count {
            Ok(n) => Ok(n),
            Err(_) => {
                self.faults = self.faults.saturating_add(1);
                Err(Failed)
            }
        }
    }
}
