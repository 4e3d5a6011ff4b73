//! A sink in memory, with room for so many bytes, that fails as it is told.
ghost use Rattle.std.specs.Prelude.{◌≡◌, ◌==◌, ◌<◌, ◌≤◌, ◌+◌, ◌++◌, [], Some, IfOk, OnErr, is_ok, not, find, option_map, length, vec_len, vec_capacity};
ghost use Rattle.outside.specs.Outside.{greatest_count, AppendsFront};
ghost use Rattle.outside.specs.MemSink.{fails_at, after_put};

use crate::device::{Failed, Sink};
use std::alloc::{AllocError, Global};
use std::marker::Model;

/// A sink in memory with room for so many bytes.
///
/// A put that its plan names takes as many bytes as planned, or as many as it has or as fit where
/// these are fewer, and fails. A put past the room takes what fits and fails. No other put fails.
#[derive(Drop)]
pub struct MemSink {
    bytes: Vec<u8>,
    room: u32,
    fails: Vec<(u32, u32)>,
    calls: u64,
    faults: u64,
}

impl Model for MemSink {
    ghost use Rattle.outside.specs.MemSink.{MemSinkState};

    ghost Value = { MemSinkState };

    ghost use Rattle.outside.specs.MemSinkLayout.{state_of, IsKept};

    ghost view = { state_of };

    ghost invariant = { IsKept };
}

impl MemSink {
    /// An empty sink whose room is reserved.
    ///
    /// An entry of `fails` is the number of a put, counted from 0, and the number of bytes that it
    /// takes before it fails. Where two entries have one number, the first counts. A put whose number
    /// is past 4294967295 can't be named.
    pub fn new(alloc: Global, room: u32, fails: Vec<(u32, u32)>) -> Result<MemSink, AllocError>
        ensures { IfOk result
            (λ s. s ≡ record { written = []; room = room; fails = fails.items; calls = 0; faults = 0 }) }
    {
        Ok(MemSink {
            bytes: Vec::with_capacity(alloc, room as usize)?,
            room,
            fails,
            calls: 0,
            faults: 0,
        })
    }

    /// What was written.
    pub fn bytes(&self) -> &[u8]
        ensures { result.now ≡ self.now.written }
    {
        &self.bytes
    }
}

impl Sink for MemSink {
    ghost written = { λ s. Some s.written };

    ghost faults = { λ s. s.faults };

    fn put(&mut self, bytes: &[u8]) -> Result<(), Failed>
        requires { 0 < length bytes.now }
        ensures fails { is_ok result ≡ not (fails_at self.old (length bytes.now)) }
        ensures after { self.new ≡ after_put self.old bytes.now }

        ensures err { OnErr result
            (AppendsFront (Some self.old.written) (Some self.new.written) bytes.now) }
        ensures never_falls { self.old.faults ≤ self.new.faults }
        ensures capped { self.new.faults ≤ greatest_count }
    {
        let plan = planned(&self.fails, self.calls);
        self.calls = self.calls.saturating_add(1);
        let free = self.room as usize - self.bytes.len();
        let count = plan
            .map_or(bytes.len(), |n| n as usize)
            .min(bytes.len().min(free));
        append(&mut self.bytes, &bytes[..count]);
        if plan.is_some() || free < bytes.len() {
            self.faults = self.faults.saturating_add(1);
            return Err(Failed);
        }
        Ok(())
    }
}

// How many bytes the put of this number is to take before it fails, if it is to fail.
fn planned(fails: &[(u32, u32)], call: u64) -> Option<u32>
    ensures { result ≡ option_map (λ f. f.1) (find (λ f. f.0 == call) fails.now) }
{
    fails.iter().find(|f| u64::from(f.0) == call).map(|f| f.1)
}

// Adds bytes for which there is room.
fn append(to: &mut Vec<u8>, bytes: &[u8])
    requires { vec_len to.old + length bytes.now ≤ vec_capacity to.old }
    ensures items { to.new.items ≡ to.old.items ++ bytes.now }
    ensures capacity { vec_capacity to.old ≤ vec_capacity to.new }
{
    match to.extend_from_slice(bytes) {
        Ok(()) => {}
        Err(_) => unreachable!(),
    }
}
