//! Values that are still needed, and those that can be dropped.

ghost use Rattle.std.specs.Prelude.{◌≡◌, ◌==◌, map, slice_set, None, Some, if◌then◌else◌};
ghost use Rattle.std.specs.List.{list_any};
ghost use Rattle.script_lang.specs.Steps.{prints_line};
ghost use Rattle.script_lang.specs.Views.{statement_of, skeleton_of};
ghost use Rattle.script_run.specs.Runs.{taken_by};
ghost use Rattle.script_run.specs.Needs.{listed, takes, line_takes, takes_line, is_needed, dropped, all_dropped};

use crate::step::first_line;
use data_text::Value;
use fuse_rewrite::Step;
use script_lang::{Line, Skel};

// The numbers of the lines whose values a skeleton takes: one, or two of `zip`.
fn arguments_of(skel: &Skel) -> (u32, Option<u32>)
    ensures { listed result ≡ (skeleton_of skel.now).arguments }
{
    match skel {
        Skel::Zip { x, y } => (*x, Some(*y)),
        Skel::Map { x, .. }
        | Skel::Mapln { x, .. }
        | Skel::Filter { x, .. }
        | Skel::Rev { x }
        | Skel::Iota { x }
        | Skel::Plain { x }
        | Skel::Reduce { x, .. }
        | Skel::ReduceBoth { x, .. }
        | Skel::Scan { x, .. }
        | Skel::Scanr { x, .. }
        | Skel::ScanBoth { x, .. }
        | Skel::Rows { x, .. }
        | Skel::Cols { x, .. }
        | Skel::Transpose { x }
        | Skel::Uacc { x, .. }
        | Skel::Dacc { x, .. }
        | Skel::Getchl { x, .. }
        | Skel::Getchr { x, .. } => (*x, None),
    }
}

fn takes(skel: &Skel, n: u32) -> bool
    ensures { result ≡ takes n (skeleton_of skel.now).arguments }
{
    match arguments_of(skel) {
        (x, None) => x == n,
        (x, Some(y)) => x == n || y == n,
    }
}

fn line_takes(line: &Line, n: u32) -> bool
    ensures { result ≡ line_takes n (Some (statement_of line.now)) }
{
    match line {
        Line::Let { skel, .. } => takes(skel, n),
        Line::Input { .. } | Line::Print { .. } => false,
    }
}

// Whether a step takes the value of the line of this number.
fn takes_line(lines: &[Line], n: u32, step: &Step) -> bool
    ensures { result ≡ takes_line (map statement_of lines.now) n step.now }
{
    match lines.get(first_line(step) as usize) {
        None => false,
        Some(line) => line_takes(line, n),
    }
}

fn is_taken(lines: &[Line], n: u32, steps: &[Step]) -> bool
    ensures { result ≡ list_any (takes_line (map statement_of lines.now) n) steps.now }
{
    steps.iter().any(|step| takes_line(lines, n, step))
}

fn prints_line(n: u32, line: &Line) -> bool
    ensures { result ≡ prints_line n (statement_of line.now) }
{
    match line {
        Line::Print { of } => *of == n,
        Line::Input { .. } | Line::Let { .. } => false,
    }
}

fn some_prints(lines: &[Line], n: u32) -> bool
    ensures { result ≡ list_any (λ l. prints_line n (statement_of l)) lines.now }
{
    lines.iter().any(|line| prints_line(n, line))
}

fn is_printed(lines: &[Line], n: u32) -> bool
    ensures { result ≡ list_any (prints_line n) (map statement_of lines.now) }
{
    some_prints(lines, n)
}

// Whether a print line prints the value of the line of this number, or one of these steps takes it.
fn is_needed(lines: &[Line], steps: &[Step], n: u32) -> bool
    ensures { result ≡ is_needed (map statement_of lines.now) steps.now n }
{
    is_printed(lines, n) || is_taken(lines, n, steps)
}

// Drops the value of a line, unless it is needed.
fn drop_value(lines: &[Line], table: &mut [Option<Value>], steps: &[Step], n: u32)
    ensures { table.new ≡ dropped (map statement_of lines.now) steps.now n table.old }
{
    let place = n as usize;
    if place < table.len() && !is_needed(lines, steps, n) {
        table[place] = None;
    }
}

fn drop_arguments(lines: &[Line], table: &mut [Option<Value>], steps: &[Step], skel: &Skel)
    ensures { table.new ≡ all_dropped (map statement_of lines.now) steps.now (skeleton_of skel.now).arguments table.old }
{
    let (x, y) = arguments_of(skel);
    drop_value(lines, table, steps, x);
    if let Some(y) = y {
        drop_value(lines, table, steps, y);
    }
}

/// Drops what a step has taken, unless it is printed or one of the steps to come takes it. It looks
/// through these steps and all lines.
pub(crate) fn drop_taken(lines: &[Line], table: &mut [Option<Value>], step: &Step, to_come: &[Step])
    ensures { table.new ≡ all_dropped (map statement_of lines.now) to_come.now (taken_by (map statement_of lines.now) step.now) table.old }
{
    match lines.get(first_line(step) as usize) {
        Some(Line::Let { skel, .. }) => drop_arguments(lines, table, to_come, skel),
        _ => {}
    }
}
