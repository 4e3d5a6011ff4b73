//! `sketo`: the words of the command line, real files and real streams in, a status out.
#![tactic(auto)]

mod file_shelf;
mod stream;

use file_shelf::FileShelf;
use outside::Sink;
use sketo_run::{Status, sketo};
use std::alloc::AllocError;
use std::process::ExitCode;
use std::{env, io};
use stream::Stream;
use worker_split::OpenGate;

// The words after the program's name.
fn words(rt: &HostRuntime) -> io::Result<Vec<String>> {
    let mut words = Vec::new(rt.alloc());
    for word in env::args(rt)?.skip(1) {
        words.push(word)?;
    }
    Ok(words)
}

// Words that can't be had: memory was refused, or a word isn't UTF-8.
fn without_words(rt: &HostRuntime, error: &io::Error) -> ExitCode {
    let mut err = Stream::new(rt.stderr());
    if error.kind() == io::ErrorKind::OutOfMemory {
        let _ = err.put(b"memory: none\n");
        return ExitCode::from(Status::NoMemory.code());
    }
    let _ = err.put(b"words: not UTF-8\n");
    ExitCode::from(2)
}

fn main(rt: HostRuntime) -> ExitCode {
    let words = match words(&rt) {
        Ok(words) => words,
        Err(error) => return without_words(&rt, &error),
    };
    let mut shelf = FileShelf::new(&rt);
    let mut out = Stream::new(rt.stdout());
    let mut err = Stream::new(rt.stderr());
    let status = sketo(
        &rt,
        rt.alloc(),
        &words,
        &mut shelf,
        &mut out,
        &mut err,
        &OpenGate,
    );
    ExitCode::from(status)
}
