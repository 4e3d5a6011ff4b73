//! Bytes on their way to a sink, handed on 4,096 at a time.
ghost use Rattle.std.specs.Prelude.{◌≡◌, ◌<◌, ◌≤◌, ◌+◌, ◌-◌, ◌%◌, ◌⊎◌, ℕ, List, [], ◌∷◌, ◌++◌, length, take, min, OnOk, OnErr, IfOk, true, false};
ghost use Rattle.std.specs.List.{flat_map};
ghost use Rattle.std.specs.Fmt.{signed_decimal};
ghost use Rattle.outside.specs.Outside.{Rose, Appends, AppendsFront};
ghost use Rattle.plain_text.specs.Given.{IsGiven, IsCutOff};
ghost use Rattle.plain_text.specs.Pending.{nothing_pending, piece_len};

use outside::{Failed, Sink};
use std::marker::Model;

// How many bytes go out as one piece.
const PIECE: usize = 4096;

// How many bytes the text of a number of 64 bits has at most.
const NUMBER: usize = 20;

/// Bytes on their way to one sink. They go out in pieces of 4,096 bytes, each as soon as it is full,
/// and the rest by [`finish`](Outlet::finish). After a failure an outlet fails for ever and puts
/// nothing more. It takes no memory, and each byte is copied once.
#[derive(Drop)]
pub struct Outlet {
    bytes: [u8; 4096],
    len: usize,
    failed: bool,
}

impl Model for Outlet {
    ghost use Rattle.plain_text.specs.Pending.{Pending};

    ghost Value = { Pending };

    ghost use Rattle.plain_text.specs.Outlet.{pending_of, HasRoom};

    ghost view = { pending_of };

    ghost invariant = { HasRoom };
}

impl Outlet {
    /// An outlet that holds nothing.
    pub fn new() -> Outlet
        ensures { result ≡ nothing_pending }
    {
        Outlet {
            bytes: [0; 4096],
            len: 0,
            failed: false,
        }
    }

    // Takes as many of the bytes as fit into this piece, and hands the piece on where it is full.
    fn take<O: Sink>(&mut self, sink: &mut O, bytes: &[u8]) -> Result<usize, Failed>
        requires working { self.old.failed ≡ false }
        requires some { 0 < length bytes.now }
        ensures some { IfOk result (λ n. 0 < n) }
        ensures within { IfOk result (λ n. n ≤ length bytes.now) }
        ensures given { IfOk result (λ n. IsGiven (take n bytes.now) self.old self.new (O.written sink.old) (O.written sink.new)) }
        ensures cut_off { let n = min (length bytes.now) (piece_len - length self.old.held) in
            OnErr result (IsCutOff (take n bytes.now) self.old self.new (O.written sink.old) (O.written sink.new) (O.faults sink.old) (O.faults sink.new)) }
        ensures never_falls { O.faults sink.old ≤ O.faults sink.new }
    {
        let count = bytes.len().min(PIECE - self.len);
        let end = self.len + count;
        self.bytes[self.len..end].copy_from_slice(&bytes[..count]);
        if end < PIECE {
            self.len = end;
            return Ok(count);
        }
        self.len = 0;
        if sink.put(&self.bytes).is_err() {
            self.failed = true;
            return Err(Failed);
        }
        Ok(count)
    }

    /// Gives the bytes. Where it fails, a front of what was held and given went out.
    pub fn text<O: Sink>(&mut self, sink: &mut O, bytes: &[u8]) -> Result<(), Failed>
        ensures given { OnOk result (IsGiven bytes.now self.old self.new (O.written sink.old) (O.written sink.new)) }
        ensures cut_off { OnErr result (IsCutOff bytes.now self.old self.new (O.written sink.old) (O.written sink.new) (O.faults sink.old) (O.faults sink.new)) }
        ensures silent { self.old.failed ≡ true → sink.new ≡ sink.old }
        ensures never_falls { O.faults sink.old ≤ O.faults sink.new }
    {
        if self.failed {
            return Err(Failed);
        }
        let mut at = 0;
        while at < bytes.len() {
            at += self.take(sink, &bytes[at..])?;
        }
        Ok(())
    }

    /// Gives several texts, one after another.
    pub fn texts<O: Sink>(&mut self, sink: &mut O, texts: &[&[u8]]) -> Result<(), Failed>
        ensures given { OnOk result (IsGiven (flat_map (λ t. t.now) texts.now) self.old self.new (O.written sink.old) (O.written sink.new)) }
        ensures cut_off { OnErr result (IsCutOff (flat_map (λ t. t.now) texts.now) self.old self.new (O.written sink.old) (O.written sink.new) (O.faults sink.old) (O.faults sink.new)) }
        ensures silent { self.old.failed ≡ true → sink.new ≡ sink.old }
        ensures never_falls { O.faults sink.old ≤ O.faults sink.new }
    {
        if self.failed {
            return Err(Failed);
        }
        for text in texts {
            self.text(sink, text)?;
        }
        Ok(())
    }

    /// Gives the shortest decimal text of a number; fastest where it is one of 64 bits.
    pub fn number<O: Sink>(&mut self, sink: &mut O, v: i128) -> Result<(), Failed>
        ensures given { OnOk result (IsGiven (signed_decimal v) self.old self.new (O.written sink.old) (O.written sink.new)) }
        ensures cut_off { OnErr result (IsCutOff (signed_decimal v) self.old self.new (O.written sink.old) (O.written sink.new) (O.faults sink.old) (O.faults sink.new)) }
        ensures silent { self.old.failed ≡ true → sink.new ≡ sink.old }
        ensures never_falls { O.faults sink.old ≤ O.faults sink.new }
    {
        let mut buffer = itoa::Buffer::new();
        match i64::try_from(v) {
            Ok(narrow) => self.text(sink, buffer.format(narrow).as_bytes()),
            Err(_) => self.text(sink, buffer.format(v).as_bytes()),
        }
    }

    // Whether nothing has failed, and the piece stays short of full with so many bytes more.
    #[inline(always)]
    fn has_room(&self, count: usize) -> bool
        ensures works { result ≡ true → self.now.failed ≡ false }
        ensures room { result ≡ true → length self.now.held + count < piece_len }
    {
        !self.failed && count < PIECE - self.len
    }

    // Puts bytes into the piece, which stays short of full.
    #[inline(always)]
    fn hold(&mut self, bytes: &[u8])
        requires { length self.old.held + length bytes.now < piece_len }
        ensures held { self.new.held ≡ self.old.held ++ bytes.now }
        ensures failed { self.new.failed ≡ self.old.failed }
    {
        let end = self.len + bytes.len();
        self.bytes[self.len..end].copy_from_slice(bytes);
        self.len = end;
    }

    // Gives bytes and the text of a number, one after the other.
    #[inline(never)]
    fn text_then_number<O: Sink>(
        &mut self,
        sink: &mut O,
        prefix: &[u8],
        v: i64,
    ) -> Result<(), Failed>
        ensures given { OnOk result (IsGiven (prefix.now ++ signed_decimal v) self.old self.new (O.written sink.old) (O.written sink.new)) }
        ensures cut_off { OnErr result (IsCutOff (prefix.now ++ signed_decimal v) self.old self.new (O.written sink.old) (O.written sink.new) (O.faults sink.old) (O.faults sink.new)) }
        ensures silent { self.old.failed ≡ true → sink.new ≡ sink.old }
        ensures never_falls { O.faults sink.old ≤ O.faults sink.new }
    {
        self.text(sink, prefix)?;
        self.number(sink, i128::from(v))
    }

    /// Gives bytes and behind them the shortest decimal text of a number. For a few bytes it takes less time than
    /// two calls: where the piece has room for them and for 20 more, both go into it at once.
    #[inline(always)]
    pub fn prefixed_number<O: Sink>(
        &mut self,
        sink: &mut O,
        prefix: &[u8],
        v: i64,
    ) -> Result<(), Failed>
        ensures given { OnOk result (IsGiven (prefix.now ++ signed_decimal v) self.old self.new (O.written sink.old) (O.written sink.new)) }
        ensures cut_off { OnErr result (IsCutOff (prefix.now ++ signed_decimal v) self.old self.new (O.written sink.old) (O.written sink.new) (O.faults sink.old) (O.faults sink.new)) }
        ensures silent { self.old.failed ≡ true → sink.new ≡ sink.old }
        ensures never_falls { O.faults sink.old ≤ O.faults sink.new }
    {
        if !self.has_room(prefix.len() + NUMBER) {
            return self.text_then_number(sink, prefix, v);
        }
        let mut buffer = itoa::Buffer::new();
        self.hold(prefix);
        self.hold(buffer.format(v).as_bytes());
        Ok(())
    }

    /// Hands on the rest, where there is one.
    pub fn finish<O: Sink>(self, sink: &mut O) -> Result<(), Failed>
        ensures given { OnOk result (Appends (O.written sink.old) (O.written sink.new) self.held) }
        ensures worked { OnOk result (self.failed ≡ false) }
        ensures front { OnErr result (AppendsFront (O.written sink.old) (O.written sink.new) self.held) }
        ensures cause { OnErr result (Rose (O.faults sink.old) (O.faults sink.new) ⊎ (self.failed ≡ true)) }
        ensures silent { self.failed ≡ true → sink.new ≡ sink.old }
        ensures never_falls { O.faults sink.old ≤ O.faults sink.new }
    {
        if self.failed {
            return Err(Failed);
        }
        if self.len == 0 {
            return Ok(());
        }
        sink.put(&self.bytes[..self.len])
    }
}
