//! Skeletons without their names as text.
ghost use Rattle.std.specs.Prelude.{◌≡◌, ◌≤◌, ◌∷◌, ◌++◌, [], map, codes, OnOk, OnErr};
ghost use Rattle.std.specs.Fmt.{signed_decimal};
ghost use Rattle.plain_text.specs.Given.{IsGiven, IsCutOff};
ghost use Rattle.scalar_expr.specs.Views.{scalars_of};
ghost use Rattle.script_lang.specs.Views.{skeleton_of};
ghost use Rattle.fuse_rewrite.specs.PlanText.{head_word, op_word, parts_text, function_text, front_text, open_text};

use crate::function_text::{write_function_after, write_literal};
use crate::words::{drop_word, flat_word, fold_word, head_word};
use data_text::{Failed, Outlet, Sink};
use scalar_expr::Func;
use script_lang::Skel;

// A space and the only function.
fn write_only_function<O: Sink>(f: &Func, out: &mut Outlet, sink: &mut O) -> Result<(), Failed>
    ensures given { OnOk result (IsGiven (parts_text (function_text (scalars_of f.now) ∷ [])) out.old out.new (O.written sink.old) (O.written sink.new)) }
    ensures cut_off { OnErr result (IsCutOff (parts_text (function_text (scalars_of f.now) ∷ [])) out.old out.new (O.written sink.old) (O.written sink.new) (O.faults sink.old) (O.faults sink.new)) }
    ensures never_falls { O.faults sink.old ≤ O.faults sink.new }
{
    write_function_after(f, out, sink)
}

// Two functions, each after a space.
fn write_both_functions<O: Sink>(
    f: &Func,
    g: &Func,
    out: &mut Outlet,
    sink: &mut O,
) -> Result<(), Failed>
    ensures given { OnOk result (IsGiven (parts_text (function_text (scalars_of f.now) ∷ function_text (scalars_of g.now) ∷ [])) out.old out.new (O.written sink.old) (O.written sink.new)) }
    ensures cut_off { OnErr result (IsCutOff (parts_text (function_text (scalars_of f.now) ∷ function_text (scalars_of g.now) ∷ [])) out.old out.new (O.written sink.old) (O.written sink.new) (O.faults sink.old) (O.faults sink.new)) }
    ensures never_falls { O.faults sink.old ≤ O.faults sink.new }
{
    write_function_after(f, out, sink)?;
    write_only_function(g, out, sink)
}

// The functions, each after a space.
fn write_functions<O: Sink>(skel: &Skel, out: &mut Outlet, sink: &mut O) -> Result<(), Failed>
    ensures given { OnOk result (IsGiven (parts_text (map function_text (skeleton_of skel.now).functions)) out.old out.new (O.written sink.old) (O.written sink.new)) }
    ensures cut_off { OnErr result (IsCutOff (parts_text (map function_text (skeleton_of skel.now).functions)) out.old out.new (O.written sink.old) (O.written sink.new) (O.faults sink.old) (O.faults sink.new)) }
    ensures never_falls { O.faults sink.old ≤ O.faults sink.new }
{
    match skel {
        Skel::Map { f, .. } => write_only_function(f, out, sink),
        Skel::Filter { f, .. } => write_only_function(f, out, sink),
        Skel::Mapln { leaf, node, .. } => write_both_functions(leaf, node, out, sink),
        Skel::Zip { .. }
        | Skel::Rev { .. }
        | Skel::Iota { .. }
        | Skel::Plain { .. }
        | Skel::Reduce { .. }
        | Skel::ReduceBoth { .. }
        | Skel::Scan { .. }
        | Skel::Scanr { .. }
        | Skel::ScanBoth { .. }
        | Skel::Rows { .. }
        | Skel::Cols { .. }
        | Skel::Transpose { .. }
        | Skel::Uacc { .. }
        | Skel::Dacc { .. }
        | Skel::Getchl { .. }
        | Skel::Getchr { .. } => out.texts(sink, &[]),
    }
}

// A space and a word.
fn write_word<'x, O: Sink>(word: &'x [u8], out: &mut Outlet, sink: &mut O) -> Result<(), Failed>
    ensures given { OnOk result (IsGiven (parts_text (word.now ∷ [])) out.old out.new (O.written sink.old) (O.written sink.new)) }
    ensures cut_off { OnErr result (IsCutOff (parts_text (word.now ∷ [])) out.old out.new (O.written sink.old) (O.written sink.new) (O.faults sink.old) (O.faults sink.new)) }
    ensures never_falls { O.faults sink.old ≤ O.faults sink.new }
{
    out.texts(sink, &[b" ", word])
}

// Two words, each after a space.
fn write_words<'x, O: Sink>(
    v: &'x [u8],
    w: &'x [u8],
    out: &mut Outlet,
    sink: &mut O,
) -> Result<(), Failed>
    ensures given { OnOk result (IsGiven (parts_text (v.now ∷ w.now ∷ [])) out.old out.new (O.written sink.old) (O.written sink.new)) }
    ensures cut_off { OnErr result (IsCutOff (parts_text (v.now ∷ w.now ∷ [])) out.old out.new (O.written sink.old) (O.written sink.new) (O.faults sink.old) (O.faults sink.new)) }
    ensures never_falls { O.faults sink.old ≤ O.faults sink.new }
{
    out.texts(sink, &[b" ", v, b" ", w])
}

// The operators, each after a space.
fn write_operators<O: Sink>(skel: &Skel, out: &mut Outlet, sink: &mut O) -> Result<(), Failed>
    ensures given { OnOk result (IsGiven (parts_text (map op_word (skeleton_of skel.now).ops)) out.old out.new (O.written sink.old) (O.written sink.new)) }
    ensures cut_off { OnErr result (IsCutOff (parts_text (map op_word (skeleton_of skel.now).ops)) out.old out.new (O.written sink.old) (O.written sink.new) (O.faults sink.old) (O.faults sink.new)) }
    ensures never_falls { O.faults sink.old ≤ O.faults sink.new }
{
    match skel {
        Skel::Reduce { op, .. } => write_word(fold_word(*op), out, sink),
        Skel::Uacc { op, .. } => write_word(fold_word(*op), out, sink),
        Skel::Scan { op, .. } => write_word(flat_word(*op), out, sink),
        Skel::Scanr { op, .. } => write_word(flat_word(*op), out, sink),
        Skel::Rows { op, .. } => write_word(flat_word(*op), out, sink),
        Skel::Cols { op, .. } => write_word(flat_word(*op), out, sink),
        Skel::ReduceBoth { down, across, .. } => write_words(
            flat_word(*down),
            flat_word(*across),
            out,
            sink,
        ),
        Skel::ScanBoth { down, across, .. } => write_words(
            flat_word(*down),
            flat_word(*across),
            out,
            sink,
        ),
        Skel::Dacc { op, .. } => write_word(drop_word(*op), out, sink),
        Skel::Map { .. }
        | Skel::Mapln { .. }
        | Skel::Zip { .. }
        | Skel::Filter { .. }
        | Skel::Rev { .. }
        | Skel::Iota { .. }
        | Skel::Plain { .. }
        | Skel::Transpose { .. }
        | Skel::Getchl { .. }
        | Skel::Getchr { .. } => out.texts(sink, &[]),
    }
}

// A space and the only number.
fn write_only_number<O: Sink>(n: &i64, out: &mut Outlet, sink: &mut O) -> Result<(), Failed>
    ensures given { OnOk result (IsGiven (parts_text (signed_decimal n.now ∷ [])) out.old out.new (O.written sink.old) (O.written sink.new)) }
    ensures cut_off { OnErr result (IsCutOff (parts_text (signed_decimal n.now ∷ [])) out.old out.new (O.written sink.old) (O.written sink.new) (O.faults sink.old) (O.faults sink.new)) }
    ensures never_falls { O.faults sink.old ≤ O.faults sink.new }
{
    out.text(sink, b" ")?;
    write_literal(n, out, sink)
}

// The number, after a space.
fn write_numbers<O: Sink>(skel: &Skel, out: &mut Outlet, sink: &mut O) -> Result<(), Failed>
    ensures given { OnOk result (IsGiven (parts_text (map signed_decimal (skeleton_of skel.now).numbers)) out.old out.new (O.written sink.old) (O.written sink.new)) }
    ensures cut_off { OnErr result (IsCutOff (parts_text (map signed_decimal (skeleton_of skel.now).numbers)) out.old out.new (O.written sink.old) (O.written sink.new) (O.faults sink.old) (O.faults sink.new)) }
    ensures never_falls { O.faults sink.old ≤ O.faults sink.new }
{
    match skel {
        Skel::Dacc { start, .. } => write_only_number(start, out, sink),
        Skel::Getchl { start, .. } => write_only_number(start, out, sink),
        Skel::Getchr { start, .. } => write_only_number(start, out, sink),
        Skel::Map { .. }
        | Skel::Mapln { .. }
        | Skel::Zip { .. }
        | Skel::Filter { .. }
        | Skel::Rev { .. }
        | Skel::Iota { .. }
        | Skel::Plain { .. }
        | Skel::Reduce { .. }
        | Skel::ReduceBoth { .. }
        | Skel::Scan { .. }
        | Skel::Scanr { .. }
        | Skel::ScanBoth { .. }
        | Skel::Rows { .. }
        | Skel::Cols { .. }
        | Skel::Transpose { .. }
        | Skel::Uacc { .. } => out.texts(sink, &[]),
    }
}

// Operators and numbers.
fn write_operands<O: Sink>(skel: &Skel, out: &mut Outlet, sink: &mut O) -> Result<(), Failed>
    ensures given { OnOk result (IsGiven (parts_text (map op_word (skeleton_of skel.now).ops) ++ parts_text (map signed_decimal (skeleton_of skel.now).numbers)) out.old out.new (O.written sink.old) (O.written sink.new)) }
    ensures cut_off { OnErr result (IsCutOff (parts_text (map op_word (skeleton_of skel.now).ops) ++ parts_text (map signed_decimal (skeleton_of skel.now).numbers)) out.old out.new (O.written sink.old) (O.written sink.new) (O.faults sink.old) (O.faults sink.new)) }
    ensures never_falls { O.faults sink.old ≤ O.faults sink.new }
{
    write_operators(skel, out, sink)?;
    write_numbers(skel, out, sink)
}

// What stands between the word and the names.
fn write_middle<O: Sink>(skel: &Skel, out: &mut Outlet, sink: &mut O) -> Result<(), Failed>
    ensures given { OnOk result (IsGiven (parts_text (map function_text (skeleton_of skel.now).functions) ++ (parts_text (map op_word (skeleton_of skel.now).ops) ++ parts_text (map signed_decimal (skeleton_of skel.now).numbers))) out.old out.new (O.written sink.old) (O.written sink.new)) }
    ensures cut_off { OnErr result (IsCutOff (parts_text (map function_text (skeleton_of skel.now).functions) ++ (parts_text (map op_word (skeleton_of skel.now).ops) ++ parts_text (map signed_decimal (skeleton_of skel.now).numbers))) out.old out.new (O.written sink.old) (O.written sink.new) (O.faults sink.old) (O.faults sink.new)) }
    ensures never_falls { O.faults sink.old ≤ O.faults sink.new }
{
    write_functions(skel, out, sink)?;
    write_operands(skel, out, sink)
}

/// A skeleton without its names.
pub(crate) fn write_front<O: Sink>(
    skel: &Skel,
    out: &mut Outlet,
    sink: &mut O,
) -> Result<(), Failed>
    ensures given { OnOk result (IsGiven (front_text (skeleton_of skel.now)) out.old out.new (O.written sink.old) (O.written sink.new)) }
    ensures cut_off { OnErr result (IsCutOff (front_text (skeleton_of skel.now)) out.old out.new (O.written sink.old) (O.written sink.new) (O.faults sink.old) (O.faults sink.new)) }
    ensures never_falls { O.faults sink.old ≤ O.faults sink.new }
{
    out.text(sink, head_word(skel))?;
    write_middle(skel, out, sink)
}

/// A skeleton without its last name, and an arrow.
pub(crate) fn write_open<O: Sink>(skel: &Skel, out: &mut Outlet, sink: &mut O) -> Result<(), Failed>
    ensures given { OnOk result (IsGiven (open_text (skeleton_of skel.now)) out.old out.new (O.written sink.old) (O.written sink.new)) }
    ensures cut_off { OnErr result (IsCutOff (open_text (skeleton_of skel.now)) out.old out.new (O.written sink.old) (O.written sink.new) (O.faults sink.old) (O.faults sink.new)) }
    ensures never_falls { O.faults sink.old ≤ O.faults sink.new }
{
    write_front(skel, out, sink)?;
    out.text(sink, b" <- ")
}
