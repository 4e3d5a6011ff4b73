//! A shelf in memory that fails only for a name that it doesn't have.
ghost use Rattle.std.specs.Prelude.{◌≡◌, ◌<◌, None, IfOk, IfSome, IsOk, IsTrue, is_some, is_ok, option_map, length, take, drop, min, ◌++◌};
ghost use Rattle.outside.specs.Outside.{NoneFell, AllCapped};
ghost use Rattle.outside.specs.Files.{content_of, file_list, file_of, rest_of, after_piece};
ghost use Rattle.outside.specs.SureShelf.{faults_of, after_start};

use crate::device::{Failed, Shelf};
use crate::files::Files;
use std::alloc::Global;
use std::marker::Model;

/// Files in memory, of which one at a time is read. A start fails only for a name that none of them
/// has. Where two files have one name, the first counts.
#[derive(Drop)]
pub struct SureShelf {
    held: Files,
    missed: u64,
}

impl Model for SureShelf {
    ghost use Rattle.std.specs.Prelude.{◌≤◌};
    ghost use Rattle.outside.specs.Outside.{greatest_count};
    ghost use Rattle.outside.specs.SureShelf.{SureShelfState};

    ghost Value = { SureShelfState };

    ghost view = { λ s. record { held = s.held; missed = s.missed } };

    ghost invariant = { λ s. s.missed ≤ greatest_count };
}

impl SureShelf {
    /// A shelf of these files, each a name and its bytes, with nothing started.
    pub fn new(_alloc: Global, files: Vec<(String, Vec<u8>)>) -> SureShelf
        ensures { result
            ≡ record { held = record { files = file_list files.items; reading = None }; missed = 0 } }
    {
        SureShelf {
            held: Files::new(files),
            missed: 0,
        }
    }
}

impl Shelf for SureShelf {
    ghost content = { λ s name. content_of s.held.files name };

    ghost ready = { λ s. is_some s.held.reading };

    ghost started = { λ s. option_map (λ f. f.name) s.held.reading };

    ghost left = { λ s. option_map (λ f. f.bytes) s.held.reading };

    ghost faults = { faults_of };

    fn start(&mut self, name: &str) -> Result<(), Failed>
        ensures found { is_ok result ≡ is_some (file_of self.old.held.files name.now) }
        ensures after { self.new ≡ after_start self.old name.now }

        ensures started { IfSome (self.new.held.reading) (λ f. f.name ≡ name.now) }
        ensures never_falls { NoneFell (faults_of self.old) (faults_of self.new) }
        ensures capped { AllCapped (faults_of self.new) }
    {
        match self.held.place(name) {
            Some(place) => {
                self.held.open(place, name);
                Ok(())
            }
            None => {
                self.held.close();
                self.missed = self.missed.saturating_add(1);
                Err(Failed)
            }
        }
    }

    fn read(&mut self, buf: &mut [u8]) -> Result<usize, Failed>
        requires ready { IsTrue (is_some self.old.held.reading) }
        requires room { 0 < length buf.old }
        ensures sure { IsOk result }
        ensures count { IfOk result (λ n. n ≡ min (length buf.old) (length (rest_of self.old.held))) }
        ensures filled { IfOk result
            (λ n. buf.new ≡ take n (rest_of self.old.held) ++ drop n buf.old) }
        ensures after { IfOk result
            (λ n. self.new ≡ record self.old { held = after_piece self.old.held n }) }

        ensures capped { AllCapped (faults_of self.new) }
    {
        Ok(self.held.read(buf, usize::MAX))
    }
}
