//! What a place to read from and a place to write to promise.
ghost use Rattle.std.specs.Prelude.{◌≡◌, ℕ, ◌<◌, ◌≤◌, Bool, List, Option, length, take, None, IsTrue, IfOk, OnOk, OnErr, IfSome, is_ok};
ghost use Rattle.outside.specs.Outside.{greatest_count, Rose, NoneFell, AllCapped, OthersKept, RoseAt, TakesPiece, Appends, AppendsFront};

/// A device failed: it could not start, read or take what it was asked to.
#[derive(Clone, Copy, Debug, PartialEq, Eq)]
pub struct Failed;

/// Files that are read from their beginning in pieces, one file at a time.
///
/// What the files hold, which one is started and what is left of it may be told or not; what is said
/// of them holds where they are told. A shelf counts its faults, so an `Err` has a cause that callers
/// can name: code over any shelf can't raise a count by itself.
pub trait Shelf {
    /// The bytes under a name, where they are told.
    ghost content: { Self → List ℕ → Option (List ℕ) };

    /// Whether a name is started.
    ghost ready: { Self → Bool };

    /// The name that was started last, where it is told.
    ghost started: { Self → Option (List ℕ) };

    /// What is still to be read under the started name, where it is told.
    ghost left: { Self → Option (List ℕ) };

    /// How often a call for this name has failed; a count that stands at its greatest value stays there.
    ghost faults: { Self → List ℕ → ℕ };

    /// Starts to read what stands under a name, from its beginning. After an `Err` no name is started.
    fn start(&mut self, name: &str) -> Result<(), Failed>
        ensures content { content self.new ≡ content self.old }
        ensures ready { ready self.new ≡ is_ok result }
        ensures started { OnOk result (IfSome (started self.new) (λ n. n ≡ name.now)) }
        ensures left { OnOk result (left self.new ≡ content self.new name.now) }
        ensures none { OnErr result (started self.new ≡ None) }

        ensures cause { OnErr result (Rose (faults self.old name.now) (faults self.new name.now)) }
        ensures never_falls { NoneFell (faults self.old) (faults self.new) }
        ensures capped { AllCapped (faults self.new) }
        ensures others { OthersKept (content self.old) name.now (faults self.old) (faults self.new) };

    /// Reads some bytes of what is left into the front of `buf` and answers how many; none just at
    /// the end. What an `Err` leaves to be read isn't said.
    fn read(&mut self, buf: &mut [u8]) -> Result<usize, Failed>
        requires ready { IsTrue (ready self.old) }
        requires room { 0 < length buf.old }
        ensures content { content self.new ≡ content self.old }
        ensures ready { ready self.new ≡ ready self.old }
        ensures started { started self.new ≡ started self.old }
        ensures within { IfOk result (λ n. n ≤ length buf.new) }
        ensures piece { IfOk result (λ n. TakesPiece (left self.old) (left self.new) (take n buf.new)) }

        ensures cause { OnErr result (RoseAt (started self.old) (faults self.old) (faults self.new)) }
        ensures never_falls { NoneFell (faults self.old) (faults self.new) }
        ensures capped { AllCapped (faults self.new) }
        ensures others { IfSome (started self.old)
            (λ name. OthersKept (content self.old) name (faults self.old) (faults self.new)) };
}

/// Where bytes are written, one piece after the other.
///
/// It counts its faults as a shelf does.
pub trait Sink {
    /// The bytes that went out, where they are told.
    ghost written: { Self → Option (List ℕ) };

    /// How often a call has failed; a count that stands at its greatest value stays there.
    ghost faults: { Self → ℕ };

    /// Writes all the bytes, or fails with a front of them written.
    fn put(&mut self, bytes: &[u8]) -> Result<(), Failed>
        requires { 0 < length bytes.now }
        ensures ok { OnOk result (Appends (written self.old) (written self.new) bytes.now) }
        ensures err { OnErr result (AppendsFront (written self.old) (written self.new) bytes.now) }

        ensures cause { OnErr result (Rose (faults self.old) (faults self.new)) }
        ensures never_falls { faults self.old ≤ faults self.new }
        ensures capped { faults self.new ≤ greatest_count };
}
