//! Times parts of the other crates.
//!
//! The first word names the part: `tasks`, `reduce`, `eval`, `print`, `bridges` or `lists`. The
//! module of that name says what is timed, and what further words it takes. Without words each
//! part does its short run, which prints the same each time.
#![tactic(auto)]

mod bridges;
mod clock;
mod eval;
mod functions;
mod lists;
mod numbers;
mod print;
mod reduce;
mod tasks;
mod words;

use anyhow::{Result, bail};

fn main(rt: HostRuntime) -> Result<()> {
    let words = words::given(&rt)?;
    let Some((part, rest)) = words.as_slice().split_first() else {
        tasks::small(&rt)?;
        reduce::small(&rt)?;
        eval::small(&rt)?;
        print::small(&rt)?;
        bridges::small(&rt)?;
        return lists::small(&rt);
    };
    match part.as_str() {
        "tasks" => tasks::run(&rt, rest),
        "reduce" => reduce::run(&rt, rest),
        "eval" => eval::run(&rt, rest),
        "print" => print::run(&rt, rest),
        "bridges" => bridges::run(&rt, rest),
        "lists" => lists::run(&rt, rest),
        _ => bail!("usage: timing tasks|reduce|eval|print|bridges|lists WORDS"),
    }
}
