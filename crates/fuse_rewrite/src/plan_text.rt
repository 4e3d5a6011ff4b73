//! Names, pipes, steps and plans as text.
ghost use Rattle.std.specs.Prelude.{◌≡◌, ◌≤◌, ◌∷◌, ◌++◌, [], true, map, codes, reverse, option_map, OnOk, OnErr};
ghost use Rattle.plain_text.specs.Pending.{IsOpen};
ghost use Rattle.plain_text.specs.Given.{IsGiven, IsCutOff};
ghost use Rattle.script_lang.specs.Steps.{bound_by};
ghost use Rattle.script_lang.specs.Views.{skeleton_of, statement_of};
ghost use Rattle.fuse_rewrite.specs.Arguments.{list_of};
ghost use Rattle.fuse_rewrite.specs.Steps.{last_of, steps_of};
ghost use Rattle.fuse_rewrite.specs.PlanText.{parts_text, name_by, name_at, front_text, open_text, is_whole, end_text, skeleton_by, skeleton_at, text_of, pipe_text, steps_text, step_text, plan_text};

use crate::plan::Plan;
use crate::skeleton::{Arguments, arguments_of};
use crate::skeleton_text::{write_front, write_open};
use crate::step::Step;
use data_text::{Failed, Outlet, Sink};
use script_lang::{Line, Script, Skel};

// The name that a line binds, if it binds one.
fn write_bound<O: Sink>(line: &Line, out: &mut Outlet, sink: &mut O) -> Result<(), Failed>
    ensures given { OnOk result (IsGiven (name_by (bound_by (statement_of line.now))) out.old out.new (O.written sink.old) (O.written sink.new)) }
    ensures cut_off { OnErr result (IsCutOff (name_by (bound_by (statement_of line.now))) out.old out.new (O.written sink.old) (O.written sink.new) (O.faults sink.old) (O.faults sink.new)) }
    ensures never_falls { O.faults sink.old ≤ O.faults sink.new }
{
    match line {
        Line::Input { bound, .. } => out.text(sink, bound.name.bytes()),
        Line::Let { bound, .. } => out.text(sink, bound.name.bytes()),
        Line::Print { .. } => out.texts(sink, &[]),
    }
}

// The name that the line of this number binds.
fn write_name<O: Sink>(lines: &[Line], n: u32, out: &mut Outlet, sink: &mut O) -> Result<(), Failed>
    ensures given { OnOk result (IsGiven (name_at (map statement_of lines.now) n) out.old out.new (O.written sink.old) (O.written sink.new)) }
    ensures cut_off { OnErr result (IsCutOff (name_at (map statement_of lines.now) n) out.old out.new (O.written sink.old) (O.written sink.new) (O.faults sink.old) (O.faults sink.new)) }
    ensures never_falls { O.faults sink.old ≤ O.faults sink.new }
{
    match lines.get(n as usize) {
        Some(line) => write_bound(line, out, sink),
        None => out.texts(sink, &[]),
    }
}

// A space and a name.
fn write_name_after<O: Sink>(
    lines: &[Line],
    n: u32,
    out: &mut Outlet,
    sink: &mut O,
) -> Result<(), Failed>
    ensures given { OnOk result (IsGiven (32 ∷ name_at (map statement_of lines.now) n) out.old out.new (O.written sink.old) (O.written sink.new)) }
    ensures cut_off { OnErr result (IsCutOff (32 ∷ name_at (map statement_of lines.now) n) out.old out.new (O.written sink.old) (O.written sink.new) (O.faults sink.old) (O.faults sink.new)) }
    ensures never_falls { O.faults sink.old ≤ O.faults sink.new }
{
    out.text(sink, b" ")?;
    write_name(lines, n, out, sink)
}

// A space and the only name.
fn write_only_name<O: Sink>(
    lines: &[Line],
    n: u32,
    out: &mut Outlet,
    sink: &mut O,
) -> Result<(), Failed>
    ensures given { OnOk result (IsGiven (parts_text (name_at (map statement_of lines.now) n ∷ [])) out.old out.new (O.written sink.old) (O.written sink.new)) }
    ensures cut_off { OnErr result (IsCutOff (parts_text (name_at (map statement_of lines.now) n ∷ [])) out.old out.new (O.written sink.old) (O.written sink.new) (O.faults sink.old) (O.faults sink.new)) }
    ensures never_falls { O.faults sink.old ≤ O.faults sink.new }
{
    write_name_after(lines, n, out, sink)
}

// Two names, each after a space.
fn write_both_names<O: Sink>(
    lines: &[Line],
    m: u32,
    n: u32,
    out: &mut Outlet,
    sink: &mut O,
) -> Result<(), Failed>
    ensures given { OnOk result (IsGiven (parts_text (name_at (map statement_of lines.now) m ∷ name_at (map statement_of lines.now) n ∷ [])) out.old out.new (O.written sink.old) (O.written sink.new)) }
    ensures cut_off { OnErr result (IsCutOff (parts_text (name_at (map statement_of lines.now) m ∷ name_at (map statement_of lines.now) n ∷ [])) out.old out.new (O.written sink.old) (O.written sink.new) (O.faults sink.old) (O.faults sink.new)) }
    ensures never_falls { O.faults sink.old ≤ O.faults sink.new }
{
    write_name_after(lines, m, out, sink)?;
    write_only_name(lines, n, out, sink)
}

// The names, each after a space.
fn write_names<O: Sink>(
    lines: &[Line],
    names: Arguments,
    out: &mut Outlet,
    sink: &mut O,
) -> Result<(), Failed>
    ensures given { OnOk result (IsGiven (parts_text (map (name_at (map statement_of lines.now)) (list_of names))) out.old out.new (O.written sink.old) (O.written sink.new)) }
    ensures cut_off { OnErr result (IsCutOff (parts_text (map (name_at (map statement_of lines.now)) (list_of names))) out.old out.new (O.written sink.old) (O.written sink.new) (O.faults sink.old) (O.faults sink.new)) }
    ensures never_falls { O.faults sink.old ≤ O.faults sink.new }
{
    match names.first {
        None => write_only_name(lines, names.last, out, sink),
        Some(first) => write_both_names(lines, first, names.last, out, sink),
    }
}

// A whole skeleton.
fn write_whole<O: Sink>(
    lines: &[Line],
    skel: &Skel,
    out: &mut Outlet,
    sink: &mut O,
) -> Result<(), Failed>
    ensures given { OnOk result (IsGiven (front_text (skeleton_of skel.now) ++ parts_text (map (name_at (map statement_of lines.now)) (skeleton_of skel.now).arguments)) out.old out.new (O.written sink.old) (O.written sink.new)) }
    ensures cut_off { OnErr result (IsCutOff (front_text (skeleton_of skel.now) ++ parts_text (map (name_at (map statement_of lines.now)) (skeleton_of skel.now).arguments)) out.old out.new (O.written sink.old) (O.written sink.new) (O.faults sink.old) (O.faults sink.new)) }
    ensures never_falls { O.faults sink.old ≤ O.faults sink.new }
{
    write_front(skel, out, sink)?;
    write_names(lines, arguments_of(skel), out, sink)
}

// A skeleton with its last name behind an arrow.
fn write_piped<O: Sink>(
    lines: &[Line],
    skel: &Skel,
    out: &mut Outlet,
    sink: &mut O,
) -> Result<(), Failed>
    ensures given { OnOk result (IsGiven (open_text (skeleton_of skel.now) ++ name_at (map statement_of lines.now) (last_of (skeleton_of skel.now).arguments)) out.old out.new (O.written sink.old) (O.written sink.new)) }
    ensures cut_off { OnErr result (IsCutOff (open_text (skeleton_of skel.now) ++ name_at (map statement_of lines.now) (last_of (skeleton_of skel.now).arguments)) out.old out.new (O.written sink.old) (O.written sink.new) (O.faults sink.old) (O.faults sink.new)) }
    ensures never_falls { O.faults sink.old ≤ O.faults sink.new }
{
    write_open(skel, out, sink)?;
    write_name(lines, arguments_of(skel).last, out, sink)
}

fn is_whole(skel: &Skel) -> bool
    ensures { result ≡ is_whole (skeleton_of skel.now).head }
{
    match skel {
        Skel::Zip { .. } | Skel::Iota { .. } => true,
        Skel::Map { .. }
        | Skel::Mapln { .. }
        | Skel::Filter { .. }
        | Skel::Rev { .. }
        | Skel::Plain { .. }
        | Skel::Reduce { .. }
        | Skel::ReduceBoth { .. }
        | Skel::Scan { .. }
        | Skel::Scanr { .. }
        | Skel::ScanBoth { .. }
        | Skel::Rows { .. }
        | Skel::Cols { .. }
        | Skel::Transpose { .. }
        | Skel::Uacc { .. }
        | Skel::Dacc { .. }
        | Skel::Getchl { .. }
        | Skel::Getchr { .. } => false,
    }
}

// A skeleton that takes no fused name.
fn write_end<O: Sink>(
    lines: &[Line],
    skel: &Skel,
    out: &mut Outlet,
    sink: &mut O,
) -> Result<(), Failed>
    ensures given { OnOk result (IsGiven (end_text (map statement_of lines.now) (skeleton_of skel.now)) out.old out.new (O.written sink.old) (O.written sink.new)) }
    ensures cut_off { OnErr result (IsCutOff (end_text (map statement_of lines.now) (skeleton_of skel.now)) out.old out.new (O.written sink.old) (O.written sink.new) (O.faults sink.old) (O.faults sink.new)) }
    ensures never_falls { O.faults sink.old ≤ O.faults sink.new }
{
    if is_whole(skel) {
        write_whole(lines, skel, out, sink)
    } else {
        write_piped(lines, skel, out, sink)
    }
}

fn skeleton_by(line: &Line) -> Option<&Skel>
    ensures { option_map (λ s. skeleton_of s.now) result ≡ skeleton_by (statement_of line.now) }
{
    match line {
        Line::Let { skel, .. } => Some(skel),
        Line::Input { .. } | Line::Print { .. } => None,
    }
}

fn skeleton_at(lines: &[Line], n: u32) -> Option<&Skel>
    ensures { option_map (λ s. skeleton_of s.now) result ≡ skeleton_at (map statement_of lines.now) n }
{
    match lines.get(n as usize) {
        Some(line) => skeleton_by(line),
        None => None,
    }
}

// The skeleton of the line of this number, without its last name, and an arrow.
fn write_open_at<O: Sink>(
    lines: &[Line],
    n: u32,
    out: &mut Outlet,
    sink: &mut O,
) -> Result<(), Failed>
    ensures given { OnOk result (IsGiven (text_of open_text (skeleton_at (map statement_of lines.now) n)) out.old out.new (O.written sink.old) (O.written sink.new)) }
    ensures cut_off { OnErr result (IsCutOff (text_of open_text (skeleton_at (map statement_of lines.now) n)) out.old out.new (O.written sink.old) (O.written sink.new) (O.faults sink.old) (O.faults sink.new)) }
    ensures never_falls { O.faults sink.old ≤ O.faults sink.new }
{
    match skeleton_at(lines, n) {
        Some(skel) => write_open(skel, out, sink),
        None => out.texts(sink, &[]),
    }
}

// The skeleton of the line of this number, that takes no fused name.
fn write_end_at<O: Sink>(
    lines: &[Line],
    n: u32,
    out: &mut Outlet,
    sink: &mut O,
) -> Result<(), Failed>
    ensures given { OnOk result (IsGiven (text_of (end_text (map statement_of lines.now)) (skeleton_at (map statement_of lines.now) n)) out.old out.new (O.written sink.old) (O.written sink.new)) }
    ensures cut_off { OnErr result (IsCutOff (text_of (end_text (map statement_of lines.now)) (skeleton_at (map statement_of lines.now) n)) out.old out.new (O.written sink.old) (O.written sink.new) (O.faults sink.old) (O.faults sink.new)) }
    ensures never_falls { O.faults sink.old ≤ O.faults sink.new }
{
    match skeleton_at(lines, n) {
        Some(skel) => write_end(lines, skel, out, sink),
        None => out.texts(sink, &[]),
    }
}

// The skeleton of the line of this number, over its chain.
fn write_pipe<O: Sink>(
    lines: &[Line],
    n: u32,
    chain: &[u32],
    out: &mut Outlet,
    sink: &mut O,
) -> Result<(), Failed>
    requires open { IsOpen out.old }
    ensures given { OnOk result (IsGiven (pipe_text (map statement_of lines.now) n (reverse chain.now)) out.old out.new (O.written sink.old) (O.written sink.new)) }
    ensures cut_off { OnErr result (IsCutOff (pipe_text (map statement_of lines.now) n (reverse chain.now)) out.old out.new (O.written sink.old) (O.written sink.new) (O.faults sink.old) (O.faults sink.new)) }
    ensures never_falls { O.faults sink.old ≤ O.faults sink.new }
{
    let mut next = n;
    let mut left = chain.len();
    while 0 < left {
        write_open_at(lines, next, out, sink)?;
        left -= 1;
        next = chain[left];
    }
    write_end_at(lines, next, out, sink)
}

// The skeleton of a step, and the end of its line.
fn write_pipe_line<O: Sink>(
    lines: &[Line],
    step: &Step,
    out: &mut Outlet,
    sink: &mut O,
) -> Result<(), Failed>
    requires open { IsOpen out.old }
    ensures given { OnOk result (IsGiven (pipe_text (map statement_of lines.now) step.now.line (reverse step.now.chain) ++ 10 ∷ []) out.old out.new (O.written sink.old) (O.written sink.new)) }
    ensures cut_off { OnErr result (IsCutOff (pipe_text (map statement_of lines.now) step.now.line (reverse step.now.chain) ++ 10 ∷ []) out.old out.new (O.written sink.old) (O.written sink.new) (O.faults sink.old) (O.faults sink.new)) }
    ensures never_falls { O.faults sink.old ≤ O.faults sink.new }
{
    write_pipe(lines, step.line(), step.chain(), out, sink)?;
    out.text(sink, b"\n")
}

// What stands behind the name of a step.
fn write_after_name<O: Sink>(
    lines: &[Line],
    step: &Step,
    out: &mut Outlet,
    sink: &mut O,
) -> Result<(), Failed>
    requires open { IsOpen out.old }
    ensures given { OnOk result (IsGiven (codes " = " ++ (pipe_text (map statement_of lines.now) step.now.line (reverse step.now.chain) ++ 10 ∷ [])) out.old out.new (O.written sink.old) (O.written sink.new)) }
    ensures cut_off { OnErr result (IsCutOff (codes " = " ++ (pipe_text (map statement_of lines.now) step.now.line (reverse step.now.chain) ++ 10 ∷ [])) out.old out.new (O.written sink.old) (O.written sink.new) (O.faults sink.old) (O.faults sink.new)) }
    ensures never_falls { O.faults sink.old ≤ O.faults sink.new }
{
    out.text(sink, b" = ")?;
    write_pipe_line(lines, step, out, sink)
}

// The line of a step.
fn write_step<O: Sink>(
    lines: &[Line],
    step: &Step,
    out: &mut Outlet,
    sink: &mut O,
) -> Result<(), Failed>
    requires open { IsOpen out.old }
    ensures given { OnOk result (IsGiven (step_text (map statement_of lines.now) step.now) out.old out.new (O.written sink.old) (O.written sink.new)) }
    ensures cut_off { OnErr result (IsCutOff (step_text (map statement_of lines.now) step.now) out.old out.new (O.written sink.old) (O.written sink.new) (O.faults sink.old) (O.faults sink.new)) }
    ensures never_falls { O.faults sink.old ≤ O.faults sink.new }
{
    write_name(lines, step.line(), out, sink)?;
    write_after_name(lines, step, out, sink)
}

// The lines of all steps.
fn write_steps<O: Sink>(
    lines: &[Line],
    steps: &[Step],
    out: &mut Outlet,
    sink: &mut O,
) -> Result<(), Failed>
    requires open { IsOpen out.old }
    ensures given { OnOk result (IsGiven (steps_text (map statement_of lines.now) steps.now) out.old out.new (O.written sink.old) (O.written sink.new)) }
    ensures cut_off { OnErr result (IsCutOff (steps_text (map statement_of lines.now) steps.now) out.old out.new (O.written sink.old) (O.written sink.new) (O.faults sink.old) (O.faults sink.new)) }
    ensures never_falls { O.faults sink.old ≤ O.faults sink.new }
{
    for step in steps {
        write_step(lines, step, out, sink)?;
    }
    Ok(())
}

// Whether the outlet works.
fn write_nothing<O: Sink>(out: &mut Outlet, sink: &mut O) -> Result<(), Failed>
    ensures open { OnOk result (IsOpen out.new) }
    ensures given { OnOk result (IsGiven ([]) out.old out.new (O.written sink.old) (O.written sink.new)) }
    ensures cut_off { OnErr result (IsCutOff ([]) out.old out.new (O.written sink.old) (O.written sink.new) (O.faults sink.old) (O.faults sink.new)) }
    ensures silent { out.old.failed ≡ true → sink.new ≡ sink.old }
    ensures never_falls { O.faults sink.old ≤ O.faults sink.new }
{
    out.text(sink, b"")
}

/// Gives a line for each step of the script's plan: the name and its skeleton, over the skeletons of
/// its chain. It takes no memory. Where it fails, a front of what the outlet held and of the text
/// went out.
pub fn write_plan<O: Sink>(
    script: &Script,
    plan: &Plan,
    out: &mut Outlet,
    sink: &mut O,
) -> Result<(), Failed>
    requires planned { plan.now ≡ steps_of (map statement_of script.now) }
    ensures given { OnOk result (IsGiven (plan_text (map statement_of script.now)) out.old out.new (O.written sink.old) (O.written sink.new)) }
    ensures cut_off { OnErr result (IsCutOff (plan_text (map statement_of script.now)) out.old out.new (O.written sink.old) (O.written sink.new) (O.faults sink.old) (O.faults sink.new)) }
    ensures silent { out.old.failed ≡ true → sink.new ≡ sink.old }
    ensures never_falls { O.faults sink.old ≤ O.faults sink.new }
{
    write_nothing(out, sink)?;
    write_steps(script.as_slice(), plan.steps(), out, sink)
}
