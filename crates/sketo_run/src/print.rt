//! Answers on their way to output.
ghost use Rattle.std.specs.Prelude.{◌≡◌, ◌⊎◌, OnOk, OnErr};
ghost use Rattle.outside.specs.Outside.{Rose, Appends, AppendsFront};
ghost use Rattle.sketo_run.specs.Report.{IsReported, write_failed};

use crate::report::report_unwritten;
use crate::status::Status;
use data_text::{Failed, Outlet, Sink};

/// What a command answers.
pub trait Answer {
    ghost use Rattle.std.specs.Prelude.{◌≡◌, ◌≤◌, ℕ, List, OnOk, OnErr, true};
    ghost use Rattle.plain_text.specs.Given.{IsGiven, IsCutOff};

    /// Its text.
    ghost text: { Self → List ℕ };

    /// Gives the text.
    fn write<O: Sink>(&self, out: &mut Outlet, sink: &mut O) -> Result<(), Failed>
        ensures given { OnOk result (IsGiven (text self.now) out.old out.new (O.written sink.old) (O.written sink.new)) }
        ensures cut_off { OnErr result (IsCutOff (text self.now) out.old out.new (O.written sink.old) (O.written sink.new) (O.faults sink.old) (O.faults sink.new)) }
        ensures never_falls { O.faults sink.old ≤ O.faults sink.new };
}

// Prints an answer.
fn put_answer<O: Sink, A: Answer>(out: &mut O, answer: &A) -> Result<(), Failed>
    ensures ok { OnOk result (Appends (O.written out.old) (O.written out.new) (A.text answer.now)) }
    ensures front { OnErr result (AppendsFront (O.written out.old) (O.written out.new) (A.text answer.now)) }
    ensures cause { OnErr result (Rose (O.faults out.old) (O.faults out.new)) }
{
    let mut outlet = Outlet::new();
    answer.write(&mut outlet, out)?;
    outlet.finish(out)
}

/// Prints an answer, or tells that it couldn't.
pub fn print<O: Sink, E: Sink, A: Answer>(out: &mut O, err: &mut E, answer: &A) -> Status
    ensures status { (result ≡ Status.Answered) ⊎ (result ≡ Status.WriteFailed) }
    ensures text { result ≡ Status.Answered → Appends (O.written out.old) (O.written out.new) (A.text answer.now) }
    ensures quiet { result ≡ Status.Answered → err.new ≡ err.old }
    ensures front { result ≡ Status.WriteFailed → AppendsFront (O.written out.old) (O.written out.new) (A.text answer.now) }
    ensures cause { result ≡ Status.WriteFailed → Rose (O.faults out.old) (O.faults out.new) }
    ensures line { result ≡ Status.WriteFailed → IsReported write_failed (E.written err.old) (E.written err.new) (E.faults err.old) (E.faults err.new) }
{
    match put_answer(out, answer) {
        Ok(()) => Status::Answered,
        Err(_) => {
            report_unwritten(err);
            Status::WriteFailed
        }
    }
}
