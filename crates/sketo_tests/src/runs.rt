//! Runs of the top call over devices in memory.
use outside::{MemShelf, MemSink, Shelf, SureShelf};
use sketo_run::sketo;
use std::alloc::{AllocError, Global};
use std::process::Abort;
use std::thread::Threads;
use worker_split::{Gate, OpenGate};

pub const SUM: &str = "input x list\nlet r = reduce add x\nprint r\n";

pub const FIVE: &str = "x list 5 1 2 3 4 5\n";

pub const RUN: &str = "run s d";

/// How a run ended: its status, and what went to output and to error output.
#[derive(Drop)]
pub struct End {
    pub status: u8,
    pub out: MemSink,
    pub err: MemSink,
}

/// The words of a command line.
pub fn words(alloc: Global, line: &str) -> Result<Vec<String>, AllocError> {
    let mut words = Vec::new(alloc);
    for word in line.split_whitespace() {
        words.push(String::from_str(alloc, word)?)?;
    }
    Ok(words)
}

/// The files s and d, of which an absent one isn't there.
pub fn files(
    alloc: Global,
    script: Option<&str>,
    data: Option<&str>,
) -> Result<Vec<(String, Vec<u8>)>, AllocError> {
    let mut files = Vec::new(alloc);
    for (name, text) in [("s", script), ("d", data)] {
        if let Some(text) = text {
            let bytes = text.as_bytes().to_vec(alloc)?;
            files.push((String::from_str(alloc, name)?, bytes))?;
        }
    }
    Ok(files)
}

/// A sink with room for 100,000 bytes, whose first put fails after so many bytes, if at all.
pub fn sink(alloc: Global, fails_after: Option<u32>) -> Result<MemSink, AllocError> {
    let mut fails = Vec::new(alloc);
    if let Some(count) = fails_after {
        fails.push((0, count))?;
    }
    MemSink::new(alloc, 100_000, fails)
}

/// A run over this shelf and these sinks.
pub fn run<R: Threads + Sync + AllocGlobal, F: Shelf, G: Gate>(
    rt: &R,
    line: &str,
    shelf: &mut F,
    mut out: MemSink,
    mut err: MemSink,
    gate: &G,
) -> Result<End, AllocError> {
    let alloc = rt.alloc();
    let words = words(alloc, line)?;
    let status = sketo(rt, alloc, &words, shelf, &mut out, &mut err, gate);
    Ok(End { status, out, err })
}

/// A run over a shelf and sinks that don't fail, through this gate.
pub fn run_through<R: Threads + Sync + AllocGlobal, G: Gate>(
    rt: &R,
    line: &str,
    script: Option<&str>,
    data: Option<&str>,
    gate: &G,
) -> Result<End, AllocError> {
    let alloc = rt.alloc();
    let mut shelf = SureShelf::new(alloc, files(alloc, script, data)?);
    let (out, err) = (sink(alloc, None)?, sink(alloc, None)?);
    run(rt, line, &mut shelf, out, err, gate)
}

/// The same through a gate that is open.
pub fn run_sure<R: Threads + Sync + AllocGlobal>(
    rt: &R,
    line: &str,
    script: Option<&str>,
    data: Option<&str>,
) -> Result<End, AllocError> {
    run_through(rt, line, script, data, &OpenGate)
}

/// A run over a shelf that reads in pieces, and of whose calls those of these numbers fail.
pub fn run_in_pieces<R: Threads + Sync + AllocGlobal + Abort>(
    rt: &R,
    files: Vec<(String, Vec<u8>)>,
    piece: u32,
    fails: Vec<u32>,
) -> Result<End, AllocError> {
    let alloc = rt.alloc();
    assert!(rt; piece > 0);
    let mut shelf = MemShelf::new(alloc, files, piece, fails)?;
    let (out, err) = (sink(alloc, None)?, sink(alloc, None)?);
    run(rt, RUN, &mut shelf, out, err, &OpenGate)
}

/// A run ended so.
pub fn assert_end(rt: &impl Abort, end: &End, status: u8, out: &str, err: &str, row: &str) {
    assert_eq!(rt; end.status, status, "the status of {row}");
    assert_eq!(rt; end.out.bytes(), out.as_bytes(), "the output of {row}");
    assert_eq!(rt;
        end.err.bytes(),
        err.as_bytes(),
        "the error output of {row}"
    );
}

/// A script makes this output of data, over each shelf.
pub fn assert_answer<R: Threads + Sync + AllocGlobal + Abort>(
    rt: &R,
    script: &str,
    data: &str,
    out: &str,
) -> Result<(), AllocError> {
    let alloc = rt.alloc();
    let end = run_sure(rt, RUN, Some(script), Some(data))?;
    assert_end(rt, &end, 0, out, "", data);
    for piece in [1, 2, 4096] {
        let files = files(alloc, Some(script), Some(data))?;
        let end = run_in_pieces(rt, files, piece, Vec::new(alloc))?;
        assert_end(rt, &end, 0, out, "", data);
    }
    Ok(())
}

/// A text of these lines, with " / " between them.
pub fn lines_of(alloc: Global, lines: &str) -> Result<String, AllocError> {
    let mut text = String::new(alloc);
    for line in lines.split(" / ") {
        text.push_str(line)?;
        text.push('\n')?;
    }
    Ok(text)
}
