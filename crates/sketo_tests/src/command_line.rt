//! No clause says that the definitions are the ones meant: the words and what each list comes to are
//! worked out by hand.
use crate::runs::files;
use command_words::{Command, read_words};
use outside::{MemShelf, MemSink};
use sketo_run::sketo;
use std::alloc::{AllocError, Global};
use std::test::Fail;
use std::thread::Threads;
use worker_split::OpenGate;

// The words of a text, each behind a bar.
fn words_of(alloc: Global, text: &str) -> Result<Vec<String>, AllocError> {
    let mut words = Vec::new(alloc);
    for word in text.split('|').skip(1) {
        words.push(String::from_str(alloc, word)?)?;
    }
    Ok(words)
}

// A command as text: its name, operands and settings.
fn shown(alloc: Global, command: Command<'_>) -> Result<String, AllocError> {
    match command {
        Command::Run(files, settings) => {
            let (script, input) = (files.script, files.input);
            let (m, block, workers) = (settings.m, settings.block, settings.workers);
            format!(in alloc; "run|{script}|{input} {m} {block} {workers}\n")
        }
        Command::Check(script) => format!(in alloc; "check|{script}\n"),
        Command::Plan(script) => format!(in alloc; "plan|{script}\n"),
        Command::Bridges(input, name, m) => format!(in alloc; "bridges|{input}|{name} {m}\n"),
        Command::Trial(seed, settings) => {
            let (m, block, workers) = (settings.m, settings.block, settings.workers);
            format!(in alloc; "trial|{seed} {m} {block} {workers}\n")
        }
    }
}

// What the program writes to this error output of words that it refuses. There are no files.
fn refused<R: Threads + Sync + AllocGlobal>(
    rt: &R,
    words: &[String],
    mut err: MemSink,
) -> Result<MemSink, Fail> {
    let alloc = rt.alloc();
    let mut shelf = MemShelf::new(alloc, files(alloc, None, None)?, 64, Vec::new(alloc))?;
    let mut out = MemSink::new(alloc, 0, Vec::new(alloc))?;
    let _status = sketo(rt, alloc, words, &mut shelf, &mut out, &mut err, &OpenGate);
    Ok(err)
}

// The command that words ask for, or the line that refuses them.
fn told<R: Threads + Sync + AllocGlobal>(rt: &R, words: &[String]) -> Result<String, Fail> {
    let alloc = rt.alloc();
    match read_words(words) {
        Ok(command) => Ok(shown(alloc, command)?),
        Err(_) => {
            let err = MemSink::new(alloc, 6_000, Vec::new(alloc))?;
            let err = refused(rt, words, err)?;
            Ok(String::from_str(alloc, str::from_utf8(err.bytes())?)?)
        }
    }
}

// Words, each behind a bar, and what they come to. Other lines are comments.
const ROWS: &str = "\
; the first word is the command, whatever it is
|walk = words: walk: unknown command
| = words: : unknown command
|--m = words: --m: unknown command
|--help = words: --help: unknown command
|Run|s|d = words: Run: unknown command
|run |s|d = words: run : unknown command
|walk|--x|y = words: walk: unknown command
; run
|run|s|d = run|s|d 1024 4096 2
|run = words: too few words
|run|s = words: too few words
|run|s|d|e = words: e: one word too many
|run|s|d|e|--x = words: e: one word too many
|run|s|d|--x|e = words: --x: unknown option
|run|s|s = run|s|s 1024 4096 2
|run|| = run|| 1024 4096 2
|run|-5|-m = run|-5|-m 1024 4096 2
; options
|run|--m|2|s|d = run|s|d 2 4096 2
|run|s|--block|3|d = run|s|d 1024 3 2
|run|s|d|--workers|4 = run|s|d 1024 4096 4
|run|--workers|1|s|--block|2|d|--m|3 = run|s|d 3 2 1
|run|s|d|--m = words: --m: no value
|run|s|d|--block = words: --block: no value
|run|s|d|--workers = words: --workers: no value
|run|s|--m = words: --m: no value
|run|s|--m|0 = words: 0: bad number
|run|--m|--m|s|d = words: --m: bad number
|run|--m|--block|s|d = words: --block: bad number
|run|s|d|--m|2|--m|3 = words: --m: given twice
|run|s|d|--m|2|--m = words: --m: given twice
|run|s|d|--m|2|--block|3|--m|4 = words: --m: given twice
|run|--block|1|--block|1|s|d|e = words: --block: given twice
|run|s|d|--workers|2|--workers|65 = words: --workers: given twice
|run|s|d|-- = words: --: unknown option
|run|--|s|d = words: --: unknown option
|run|s|d|--m=2 = words: --m=2: unknown option
|run|s|d|--M|2 = words: --M: unknown option
|run|s|d|--format|2 = words: --format: unknown option
; numbers
|run|s|d|--m|0 = words: 0: bad number
|run|s|d|--m|1 = run|s|d 1 4096 2
|run|s|d|--m|4294967295 = run|s|d 4294967295 4096 2
|run|s|d|--m|4294967296 = words: 4294967296: bad number
|run|s|d|--block|0 = words: 0: bad number
|run|s|d|--block|1 = run|s|d 1024 1 2
|run|s|d|--block|4294967295 = run|s|d 1024 4294967295 2
|run|s|d|--block|4294967296 = words: 4294967296: bad number
|run|s|d|--workers|0 = words: 0: bad number
|run|s|d|--workers|1 = run|s|d 1024 4096 1
|run|s|d|--workers|64 = run|s|d 1024 4096 64
|run|s|d|--workers|65 = words: 65: bad number
|run|s|d|--m|00000000000000000007 = run|s|d 7 4096 2
|run|s|d|--m|000000000000000000007 = words: 000000000000000000007: bad number
|run|s|d|--m|18446744073709551617 = words: 18446744073709551617: bad number
|run|s|d|--m|99999999999999999999 = words: 99999999999999999999: bad number
|run|s|d|--m|+1 = words: +1: bad number
|run|s|d|--m|-1 = words: -1: bad number
|run|s|d|--m|1  = words: 1 : bad number
|run|s|d|--m| = words: : bad number
|run|s|d|--m|٣ = words: ٣: bad number
; standard input
|run|-|- = words: -: standard input twice
|run|-|--m|2|- = words: -: standard input twice
|run|-|--block|2|--m|3|-|--x = words: -: standard input twice
|run|-|s|- = words: -: one word too many
|run|--m|0|-|- = words: 0: bad number
|run|-|d = run|-|d 1024 4096 2
|run|s|- = run|s|- 1024 4096 2
; check and plan
|check|s = check|s
|check|- = check|-
|check| = check|
|check = words: too few words
|check|s|d = words: d: one word too many
|check|s|--m|2 = words: --m: unknown option
|check|--workers = words: --workers: unknown option
|plan|s = plan|s
|plan|- = plan|-
|plan = words: too few words
|plan|s|t|--m = words: t: one word too many
|plan|--m|2|s = words: --m: unknown option
; bridges
|bridges|d|t = bridges|d|t 1024
|bridges|d|t|--m|3 = bridges|d|t 3
|bridges|--m|3|-|a_1Z = bridges|-|a_1Z 3
|bridges|t = words: too few words
|bridges|d|1t = words: 1t: bad name
|bridges|d| = words: : bad name
|bridges|d|- = words: -: bad name
|bridges|d|abcdefghijklmnopqrstuvwxyzabcdef = bridges|d|abcdefghijklmnopqrstuvwxyzabcdef 1024
|bridges|d|abcdefghijklmnopqrstuvwxyzabcdefg = words: abcdefghijklmnopqrstuvwxyzabcdefg: bad name
|bridges|d|t|--block|2 = words: --block: unknown option
|bridges|d|t|u = words: u: one word too many
|bridges|d|1t|--m|0 = words: 1t: bad name
|bridges|--m|0|d|1t = words: 0: bad number
; trial
|trial|0 = trial|0 1024 4096 2
|trial|18446744073709551615 = trial|18446744073709551615 1024 4096 2
|trial|18446744073709551616 = words: 18446744073709551616: bad number
|trial|00000000000000000001|--workers|64 = trial|1 1024 4096 64
|trial|000000000000000000001 = words: 000000000000000000001: bad number
|trial|--block|1000000|1|--workers|1|--m|1 = trial|1 1 1000000 1
|trial|-1 = words: -1: bad number
|trial| = words: : bad number
|trial|x|--m = words: x: bad number
|trial|1|2 = words: 2: one word too many
|trial|--m|2 = words: too few words
|trial|1|--format|2 = words: --format: unknown option";

#[test]
fn words_ask_for_a_command_or_are_refused_at_the_first_fault(rt: HostRuntime) -> Result<(), Fail> {
    let special = [
        ("", "words: no command"),
        ("|a\nb", "words: a\nb: unknown command"),
        ("|run|s|a\nb|c\nd", "words: c\nd: one word too many"),
    ];
    let mut count = 0u64;
    let rows = ROWS.lines().filter_map(|row| row.split_once(" = "));
    for (text, outcome) in rows.chain(special) {
        count = count.saturating_add(1);
        let found = told(&rt, &words_of(rt.alloc(), text)?)?;
        assert_eq!(rt; found.strip_suffix('\n'), Some(outcome), "at {text}");
    }
    assert_eq!(rt; count, 105);
    Ok(())
}

#[test]
fn a_refusal_goes_out_in_pieces_up_to_a_failure(rt: HostRuntime) -> Result<(), Fail> {
    let alloc = rt.alloc();
    let mut long = String::from_str(alloc, "|")?;
    for _ in 0..5_000u32 {
        long.push('x')?;
    }
    let line = told(&rt, &words_of(alloc, &long)?)?;
    assert_eq!(rt; line.len(), 7 + 5_000 + 18);
    for (text, failing, taken) in [
        ("|run|s", 0u32, 3u32),
        (long.as_str(), 0, 4_000),
        (long.as_str(), 1, 2),
    ] {
        let words = words_of(alloc, text)?;
        let whole = told(&rt, &words)?;
        let mut fails = Vec::new(alloc);
        fails.push((failing, taken))?;
        let err = refused(&rt, &words, MemSink::new(alloc, 6_000, fails)?)?;
        let out = failing as usize * 4_096 + taken as usize;
        assert_eq!(rt; err.bytes().len(), out, "at put {failing}");
        assert!(rt;
            whole.as_bytes().starts_with(err.bytes()),
            "at put {failing}"
        );
    }
    Ok(())
}
