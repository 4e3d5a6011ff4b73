//! A shelf in memory that fails as it is told.
ghost use Rattle.std.specs.Prelude.{◌≡◌, ◌==◌, ◌<◌, ◌++◌, None, Some, IfOk, OnErr, IfSome, IsTrue, is_some, is_ok, not, option_map, length, replicate, take, drop};
ghost use Rattle.std.specs.List.{list_any};
ghost use Rattle.outside.specs.Outside.{raised, NoneFell, AllCapped, OthersKept, Rose};
ghost use Rattle.outside.specs.Files.{content_of, file_list, rest_of};
ghost use Rattle.outside.specs.MemShelf.{faults_of, is_planned, with_fault, starts, after_start, piece_len, after_read, after_failed_read};

use crate::device::{Failed, Shelf};
use crate::files::Files;
use std::alloc::{AllocError, Global};
use std::marker::Model;

/// Files in memory, of which one at a time is read, in pieces.
///
/// The calls that its plan names fail, and each start of a name that no file has. No other call fails
/// or changes a count. It keeps one count for each file, and one for all names that no file has. Where
/// two files have one name, the first counts.
#[derive(Drop)]
pub struct MemShelf {
    held: Files,
    piece: u32,
    fails: Vec<u32>,
    calls: u64,
    counts: Vec<u64>,
    missed: u64,
}

impl Model for MemShelf {
    ghost use Rattle.outside.specs.MemShelf.{MemShelfState};

    ghost Value = { MemShelfState };

    ghost use Rattle.outside.specs.MemShelfLayout.{state_of, IsKept};

    ghost view = { state_of };

    ghost invariant = { IsKept };
}

impl MemShelf {
    /// A shelf of these files, each a name and its bytes, with nothing started.
    ///
    /// A read gives `piece` bytes at most. The calls of `start` and `read` are numbered together from
    /// 0, and those whose numbers stand in `fails` fail. A call whose number is past 4294967295 can't
    /// be named.
    pub fn new(
        alloc: Global,
        files: Vec<(String, Vec<u8>)>,
        piece: u32,
        fails: Vec<u32>,
    ) -> Result<MemShelf, AllocError>
        requires { 0 < piece }
        ensures { IfOk result (λ s. s ≡ record {
          held = record { files = file_list files.items; reading = None };
          piece = piece;
          fails = fails.items;
          calls = 0;
          counts = replicate (length files.items) 0;
          missed = 0;
        }) }
    {
        let counts = vec![in alloc; 0u64; files.len()]?;
        Ok(MemShelf {
            held: Files::new(files),
            piece,
            fails,
            calls: 0,
            counts,
            missed: 0,
        })
    }

    // Counts a call, and says whether it is one that is to fail.
    fn count_call(&mut self) -> bool
        ensures planned { result ≡ is_planned self.old }
        ensures after { self.new ≡ record self.old { calls = raised self.old.calls } }
    {
        let planned = names(&self.fails, self.calls);
        self.calls = self.calls.saturating_add(1);
        planned
    }

    // Counts a fault of the file at this place, or of a name that no file has.
    fn count_fault(&mut self, place: Option<usize>)
        requires { IfSome place (λ i. i < length self.old.counts) }
        ensures { self.new ≡ with_fault self.old place }
    {
        match place {
            Some(i) => self.counts[i] = self.counts[i].saturating_add(1),
            None => self.missed = self.missed.saturating_add(1),
        }
    }
}

impl Shelf for MemShelf {
    ghost content = { λ s name. content_of s.held.files name };

    ghost ready = { λ s. is_some s.held.reading };

    ghost started = { λ s. option_map (λ f. f.name) s.held.reading };

    ghost left = { λ s. option_map (λ f. f.bytes) s.held.reading };

    ghost faults = { faults_of };

    fn start(&mut self, name: &str) -> Result<(), Failed>
        ensures answer { is_ok result ≡ starts self.old name.now }
        ensures after { self.new ≡ after_start self.old name.now (is_ok result) }

        ensures started { IfSome self.new.held.reading (λ f. f.name ≡ name.now) }
        ensures cause { OnErr result (Rose (faults_of self.old name.now) (faults_of self.new name.now)) }
        ensures never_falls { NoneFell (faults_of self.old) (faults_of self.new) }
        ensures capped { AllCapped (faults_of self.new) }
        ensures others { OthersKept (content_of self.old.held.files) name.now
            (faults_of self.old) (faults_of self.new) }
    {
        let planned = self.count_call();
        match self.held.place(name) {
            Some(place) if !planned => {
                self.held.open(place, name);
                Ok(())
            }
            place => {
                self.held.close();
                self.count_fault(place);
                Err(Failed)
            }
        }
    }

    fn read(&mut self, buf: &mut [u8]) -> Result<usize, Failed>
        requires ready { IsTrue (is_some self.old.held.reading) }
        requires room { 0 < length buf.old }
        ensures answer { is_ok result ≡ not (is_planned self.old) }
        ensures count { IfOk result (λ n. n ≡ piece_len self.old (length buf.old)) }
        ensures filled { IfOk result
            (λ n. buf.new ≡ take n (rest_of self.old.held) ++ drop n buf.old) }
        ensures ok { IfOk result (λ n. self.new ≡ after_read self.old n) }
        ensures err { OnErr result (self.new ≡ after_failed_read self.old) }
        ensures untouched { OnErr result (buf.new ≡ buf.old) }

        ensures end { IfOk result (λ n. n ≡ 0 → length (rest_of self.old.held) ≡ 0) }
        ensures cause { OnErr result
            (IfSome self.old.held.reading
            (λ f. Rose (faults_of self.old f.name) (faults_of self.new f.name))) }
        ensures never_falls { NoneFell (faults_of self.old) (faults_of self.new) }
        ensures capped { AllCapped (faults_of self.new) }
        ensures others { IfSome self.old.held.reading
            (λ f. OthersKept (content_of self.old.held.files) f.name
            (faults_of self.old) (faults_of self.new)) }
    {
        if self.count_call() {
            let place = self.held.open_place();
            self.count_fault(place);
            return Err(Failed);
        }
        Ok(self.held.read(buf, self.piece as usize))
    }
}

// Whether a call's number is one of these.
fn names(fails: &[u32], call: u64) -> bool
    ensures { result ≡ list_any (λ number. number == call) fails.now }
{
    fails.iter().any(|number| u64::from(*number) == call)
}
