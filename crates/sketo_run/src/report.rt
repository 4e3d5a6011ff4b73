//! Lines on error output.
ghost use Rattle.std.specs.Prelude.{◌≡◌, ◌≤◌, map, OnOk, OnErr};
ghost use Rattle.std.specs.List.{flat_map};
ghost use Rattle.outside.specs.Outside.{Rose, Appends, AppendsFront};
ghost use Rattle.sketo_run.specs.Report.{IsReported, read_failed, write_failed, no_memory, not_built, byte_line, fault_line, fault_text, fault_byte, name_line, unlike_line, misfit_line, what_text, place_line, long_line, script_line};
ghost use Rattle.script_lang.specs.Views.{statement_of};
ghost use Rattle.sketo_run.specs.Stops.{line_of};
ghost use Rattle.command_words.specs.Refusals.{refusal_line, word_line};
ghost use Rattle.command_words.specs.Seen.{refusal_of};

use crate::input_names::{input_name, like_name};
use crate::stop::Stop;
use command_words::Refusal;
use data_text::{DataFault, Failed, Outlet, Sink};
use script_lang::{Script, ScriptFault, ScriptWhat};
use script_run::FitFault;

// A line of these parts.
fn put_line<E: Sink>(err: &mut E, parts: &[&[u8]]) -> Result<(), Failed>
    ensures ok { OnOk result (Appends (E.written err.old) (E.written err.new) (flat_map (λ p. p.now) parts.now)) }
    ensures front { OnErr result (AppendsFront (E.written err.old) (E.written err.new) (flat_map (λ p. p.now) parts.now)) }
    ensures cause { OnErr result (Rose (E.faults err.old) (E.faults err.new)) }
{
    let mut outlet = Outlet::new();
    outlet.texts(err, parts)?;
    outlet.finish(err)
}

// A fault of error output changes nothing.
fn report<E: Sink>(err: &mut E, parts: &[&[u8]])
    ensures { IsReported (flat_map (λ p. p.now) parts.now) (E.written err.old) (E.written err.new) (E.faults err.old) (E.faults err.new) }
{
    let _ = put_line(err, parts);
}

fn report_unread<E: Sink>(err: &mut E, file: &str)
    ensures { IsReported (read_failed file.now) (E.written err.old) (E.written err.new) (E.faults err.old) (E.faults err.new) }
{
    report(err, &[b"read: ", file.as_bytes(), b": failed\n"]);
}

/// Tells that a write to output failed.
pub fn report_unwritten<E: Sink>(err: &mut E)
    ensures { IsReported write_failed (E.written err.old) (E.written err.new) (E.faults err.old) (E.faults err.new) }
{
    report(err, &[b"write: failed\n"]);
}

// What is wrong with a script.
fn what_text(what: ScriptWhat) -> &'static str
    ensures { result.now ≡ what_text what }
{
    match what {
        ScriptWhat::BadLine => "bad line",
        ScriptWhat::TooDeep => "too deep",
        ScriptWhat::TooManyPrints => "too many prints",
        ScriptWhat::UnknownName => "unknown name",
        ScriptWhat::Rebound => "name used twice",
        ScriptWhat::WrongKind => "wrong kind",
        ScriptWhat::UnknownOp => "unknown operator",
        ScriptWhat::WrongArity => "wrong arity",
        ScriptWhat::TooWide => "too wide",
        ScriptWhat::NoUnit => "no unit",
        ScriptWhat::NotAbiding => "not abiding",
        ScriptWhat::ShapeDiffers => "shape differs",
        ScriptWhat::TupleTooLong => "tuple too long",
    }
}

// Tells what is wrong at a place of a script.
fn report_place<'a, E: Sink>(
    err: &mut E,
    file: &'a str,
    line: &'a str,
    column: &'a str,
    text: &'a str,
)
    ensures { IsReported (place_line file.entry.now line.entry.now column.entry.now text.entry.now) (E.written err.old) (E.written err.new) (E.faults err.old) (E.faults err.new) }
{
    report(
        err,
        &[
            b"script: ",
            file.as_bytes(),
            b": line ",
            line.as_bytes(),
            b", column ",
            column.as_bytes(),
            b": ",
            text.as_bytes(),
            b"\n",
        ],
    );
}

fn report_long<E: Sink>(err: &mut E, file: &str)
    ensures { IsReported (long_line file.now) (E.written err.old) (E.written err.new) (E.faults err.old) (E.faults err.new) }
{
    report(err, &[b"script: ", file.as_bytes(), b": too long\n"]);
}

fn report_no_memory<E: Sink>(err: &mut E)
    ensures { IsReported no_memory (E.written err.old) (E.written err.new) (E.faults err.old) (E.faults err.new) }
{
    report(err, &[b"memory: none\n"]);
}

fn report_script<E: Sink>(err: &mut E, file: &str, fault: ScriptFault)
    ensures { IsReported (script_line file.now fault) (E.written err.old) (E.written err.new) (E.faults err.old) (E.faults err.new) }
{
    match fault {
        ScriptFault::Long => report_long(err, file),
        ScriptFault::At { line, column, what } => {
            let mut lines = itoa::Buffer::new();
            let mut columns = itoa::Buffer::new();
            report_place(
                err,
                file,
                lines.format(line),
                columns.format(column),
                what_text(what),
            );
        }
        ScriptFault::Memory => report_no_memory(err),
    }
}

// What is wrong with data, and at which byte.
fn fault_parts(fault: DataFault) -> (u64, &'static str)
    ensures byte { result.0 ≡ fault_byte fault }
    ensures text { result.1.now ≡ fault_text fault }
{
    match fault {
        DataFault::BadWord(at) => (at, "bad word"),
        DataFault::BadNumber(at) => (at, "bad number"),
        DataFault::LongWord(at) => (at, "long word"),
        DataFault::LongGap(at) => (at, "long gap"),
        DataFault::BadKind(at) => (at, "unknown kind"),
        DataFault::TooMany(at) => (at, "too many"),
        DataFault::Short(at) => (at, "short"),
        DataFault::Shape(at) => (at, "wrong shape"),
        DataFault::Duplicate(at) => (at, "name used twice"),
        DataFault::TooManySections(at) => (at, "too many sections"),
        DataFault::Read | DataFault::Memory => (0, ""),
    }
}

// Tells what is wrong at a byte of data.
fn report_byte<'a, E: Sink>(err: &mut E, file: &'a str, byte: &'a str, text: &'a str)
    ensures { IsReported (byte_line file.entry.now byte.entry.now text.entry.now) (E.written err.old) (E.written err.new) (E.faults err.old) (E.faults err.new) }
{
    report(
        err,
        &[
            b"data: ",
            file.as_bytes(),
            b": byte ",
            byte.as_bytes(),
            b": ",
            text.as_bytes(),
            b"\n",
        ],
    );
}

fn report_fault<E: Sink>(err: &mut E, file: &str, fault: DataFault)
    ensures { IsReported (fault_line file.now fault) (E.written err.old) (E.written err.new) (E.faults err.old) (E.faults err.new) }
{
    let (byte, text) = fault_parts(fault);
    let mut buffer = itoa::Buffer::new();
    report_byte(err, file, buffer.format(byte), text);
}

// Tells what is wrong with the data under a name.
fn report_name<'a, E: Sink>(err: &mut E, file: &'a str, name: &'a [u8], text: &'a [u8])
    ensures { IsReported (name_line file.entry.now name.entry.now text.entry.now) (E.written err.old) (E.written err.new) (E.faults err.old) (E.faults err.new) }
{
    report(
        err,
        &[b"data: ", file.as_bytes(), b": ", name, b": ", text, b"\n"],
    );
}

// Tells that the data under a name hasn't the shape of that under another.
fn report_unlike<'a, E: Sink>(err: &mut E, file: &'a str, name: &'a [u8], other: &'a [u8])
    ensures { IsReported (unlike_line file.entry.now name.entry.now other.entry.now) (E.written err.old) (E.written err.new) (E.faults err.old) (E.faults err.new) }
{
    report(
        err,
        &[
            b"data: ",
            file.as_bytes(),
            b": ",
            name,
            b": not like ",
            other,
            b"\n",
        ],
    );
}

fn report_misfit<E: Sink>(err: &mut E, file: &str, script: &Script, fault: FitFault)
    ensures { IsReported (misfit_line file.now (map statement_of script.now) fault) (E.written err.old) (E.written err.new) (E.faults err.old) (E.faults err.new) }
{
    let lines = script.as_slice();
    match fault {
        FitFault::NotThere(i) => report_name(err, file, input_name(lines, i), b"not there"),
        FitFault::WrongKind(i) => report_name(err, file, input_name(lines, i), b"wrong kind"),
        FitFault::NotLike(i) => {
            report_unlike(err, file, input_name(lines, i), like_name(lines, i));
        }
    }
}

/// Tells why there is no answer.
pub fn report_stop<E: Sink>(err: &mut E, stop: &Stop, script: &str, input: &str)
    ensures { IsReported (line_of stop.now (record { script = script.now; input = input.now })) (E.written err.old) (E.written err.new) (E.faults err.old) (E.faults err.new) }
{
    match stop {
        Stop::ScriptUnread => report_unread(err, script),
        Stop::DataUnread => report_unread(err, input),
        Stop::BadScript(fault) => report_script(err, script, *fault),
        Stop::BadData(fault) => report_fault(err, input, *fault),
        Stop::Unfit(fault, program) => report_misfit(err, input, program, *fault),
        Stop::NoMemory => report_no_memory(err),
        Stop::NotBuilt => report(err, &[b"stage: not built\n"]),
    }
}

// Tells what is wrong with a word.
fn report_word<'a, E: Sink>(err: &mut E, word: &'a str, text: &'a str)
    ensures { IsReported (word_line word.entry.now text.entry.now) (E.written err.old) (E.written err.new) (E.faults err.old) (E.faults err.new) }
{
    report(
        err,
        &[b"words: ", word.as_bytes(), b": ", text.as_bytes(), b"\n"],
    );
}

/// Tells why words are refused. A word may be longer than a piece of output.
pub fn report_refusal<E: Sink>(err: &mut E, refusal: Refusal<'_>)
    ensures { IsReported (refusal_line (refusal_of refusal.entry)) (E.written err.old) (E.written err.new) (E.faults err.old) (E.faults err.new) }
{
    match refusal {
        Refusal::NoCommand => report(err, &[b"words: no command\n"]),
        Refusal::At(word, fault) => report_word(err, word, fault.text()),
        Refusal::TooFewWords => report(err, &[b"words: too few words\n"]),
    }
}
