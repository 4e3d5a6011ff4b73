//! The text that tells the type of each name.
ghost use Rattle.std.specs.Prelude.{◌≡◌, ◌≤◌, true, [], ◌∷◌, map, flat_map, OnOk, OnErr};
ghost use Rattle.plain_text.specs.Pending.{IsOpen};
ghost use Rattle.plain_text.specs.Given.{IsGiven, IsCutOff};
ghost use Rattle.script_lang.specs.TypesText.{kind_word, width_word, type_line, binding_text, statement_text, types_text};
ghost use Rattle.script_lang.specs.Views.{binding_of, statement_of};

use crate::kind::Kind;
use crate::line::{Bound, Line};
use crate::script::Script;
use op_laws::Width;
use plain_text::{Failed, Outlet, Sink};

impl Kind {
    fn word<'x>(self) -> &'x [u8]
        ensures { result.now ≡ kind_word self }
    {
        match self {
            Kind::Single => b"value",
            Kind::List => b"list",
            Kind::Matrix => b"matrix",
            Kind::Tree => b"tree",
            Kind::Rose => b"rose",
        }
    }
}

fn width_word<'x>(width: Width) -> &'x [u8]
    ensures { result.now ≡ width_word width }
{
    match width {
        Width::W64 => b"w64",
        Width::W96 => b"w96",
        Width::W128 => b"w128",
    }
}

// The line of a type of one width.
fn write_one<'x, O: Sink>(
    name: &'x [u8],
    kind: &'x [u8],
    v: Width,
    out: &mut Outlet,
    sink: &mut O,
) -> Result<(), Failed>
    ensures given { OnOk result (IsGiven (type_line name.now kind.now (v ∷ [])) out.old out.new (O.written sink.old) (O.written sink.new)) }
    ensures cut_off { OnErr result (IsCutOff (type_line name.now kind.now (v ∷ [])) out.old out.new (O.written sink.old) (O.written sink.new) (O.faults sink.old) (O.faults sink.new)) }
    ensures silent { out.old.failed ≡ true → sink.new ≡ sink.old }
    ensures never_falls { O.faults sink.old ≤ O.faults sink.new }
{
    out.texts(sink, &[name, b" ", kind, b" ", width_word(v), b"\n"])
}

// The line of a type of two widths.
fn write_two<'x, O: Sink>(
    name: &'x [u8],
    kind: &'x [u8],
    v: Width,
    w: Width,
    out: &mut Outlet,
    sink: &mut O,
) -> Result<(), Failed>
    ensures given { OnOk result (IsGiven (type_line name.now kind.now (v ∷ w ∷ [])) out.old out.new (O.written sink.old) (O.written sink.new)) }
    ensures cut_off { OnErr result (IsCutOff (type_line name.now kind.now (v ∷ w ∷ [])) out.old out.new (O.written sink.old) (O.written sink.new) (O.faults sink.old) (O.faults sink.new)) }
    ensures silent { out.old.failed ≡ true → sink.new ≡ sink.old }
    ensures never_falls { O.faults sink.old ≤ O.faults sink.new }
{
    out.texts(
        sink,
        &[
            name,
            b" ",
            kind,
            b" (",
            width_word(v),
            b",",
            width_word(w),
            b")\n",
        ],
    )
}

// The line of a type of three widths.
fn write_three<'x, O: Sink>(
    name: &'x [u8],
    kind: &'x [u8],
    v: Width,
    w: Width,
    x: Width,
    out: &mut Outlet,
    sink: &mut O,
) -> Result<(), Failed>
    ensures given { OnOk result (IsGiven (type_line name.now kind.now (v ∷ w ∷ x ∷ [])) out.old out.new (O.written sink.old) (O.written sink.new)) }
    ensures cut_off { OnErr result (IsCutOff (type_line name.now kind.now (v ∷ w ∷ x ∷ [])) out.old out.new (O.written sink.old) (O.written sink.new) (O.faults sink.old) (O.faults sink.new)) }
    ensures silent { out.old.failed ≡ true → sink.new ≡ sink.old }
    ensures never_falls { O.faults sink.old ≤ O.faults sink.new }
{
    out.texts(
        sink,
        &[
            name,
            b" ",
            kind,
            b" (",
            width_word(v),
            b",",
            width_word(w),
            b",",
            width_word(x),
            b")\n",
        ],
    )
}

// The line of a type of four widths.
fn write_four<'x, O: Sink>(
    name: &'x [u8],
    kind: &'x [u8],
    v: Width,
    w: Width,
    x: Width,
    y: Width,
    out: &mut Outlet,
    sink: &mut O,
) -> Result<(), Failed>
    ensures given { OnOk result (IsGiven (type_line name.now kind.now (v ∷ w ∷ x ∷ y ∷ [])) out.old out.new (O.written sink.old) (O.written sink.new)) }
    ensures cut_off { OnErr result (IsCutOff (type_line name.now kind.now (v ∷ w ∷ x ∷ y ∷ [])) out.old out.new (O.written sink.old) (O.written sink.new) (O.faults sink.old) (O.faults sink.new)) }
    ensures silent { out.old.failed ≡ true → sink.new ≡ sink.old }
    ensures never_falls { O.faults sink.old ≤ O.faults sink.new }
{
    out.texts(
        sink,
        &[
            name,
            b" ",
            kind,
            b" (",
            width_word(v),
            b",",
            width_word(w),
            b",",
            width_word(x),
            b",",
            width_word(y),
            b")\n",
        ],
    )
}

// The line of what a name stands for.
fn write_bound<O: Sink>(bound: &Bound, out: &mut Outlet, sink: &mut O) -> Result<(), Failed>
    ensures given { OnOk result (IsGiven (binding_text (binding_of bound.now)) out.old out.new (O.written sink.old) (O.written sink.new)) }
    ensures cut_off { OnErr result (IsCutOff (binding_text (binding_of bound.now)) out.old out.new (O.written sink.old) (O.written sink.new) (O.faults sink.old) (O.faults sink.new)) }
    ensures silent { out.old.failed ≡ true → sink.new ≡ sink.old }
    ensures never_falls { O.faults sink.old ≤ O.faults sink.new }
{
    let name = bound.name.bytes();
    let kind = bound.kind.word();
    let ty = bound.ty;
    match ty.len() {
        1 => write_one(name, kind, ty.at(0), out, sink),
        2 => write_two(name, kind, ty.at(0), ty.at(1), out, sink),
        3 => write_three(name, kind, ty.at(0), ty.at(1), ty.at(2), out, sink),
        _ => write_four(
            name,
            kind,
            ty.at(0),
            ty.at(1),
            ty.at(2),
            ty.at(3),
            out,
            sink,
        ),
    }
}

// The line of a name, if the line of the script binds one.
fn write_line<O: Sink>(line: &Line, out: &mut Outlet, sink: &mut O) -> Result<(), Failed>
    requires { IsOpen out.old }
    ensures given { OnOk result (IsGiven (statement_text (statement_of line.now)) out.old out.new (O.written sink.old) (O.written sink.new)) }
    ensures cut_off { OnErr result (IsCutOff (statement_text (statement_of line.now)) out.old out.new (O.written sink.old) (O.written sink.new) (O.faults sink.old) (O.faults sink.new)) }
    ensures never_falls { O.faults sink.old ≤ O.faults sink.new }
{
    match line {
        Line::Input { bound, .. } => write_bound(bound, out, sink),
        Line::Let { bound, .. } => write_bound(bound, out, sink),
        Line::Print { .. } => Ok(()),
    }
}

// The lines of all names.
fn write_lines<O: Sink>(lines: &[Line], out: &mut Outlet, sink: &mut O) -> Result<(), Failed>
    requires { IsOpen out.old }
    ensures given { OnOk result (IsGiven (flat_map (λ l. statement_text (statement_of l)) lines.now) out.old out.new (O.written sink.old) (O.written sink.new)) }
    ensures cut_off { OnErr result (IsCutOff (flat_map (λ l. statement_text (statement_of l)) lines.now) out.old out.new (O.written sink.old) (O.written sink.new) (O.faults sink.old) (O.faults sink.new)) }
    ensures never_falls { O.faults sink.old ≤ O.faults sink.new }
{
    for line in lines {
        write_line(line, out, sink)?;
    }
    Ok(())
}

// Whether the outlet works.
fn write_nothing<O: Sink>(out: &mut Outlet, sink: &mut O) -> Result<(), Failed>
    ensures open { OnOk result (IsOpen out.new) }
    ensures given { OnOk result (IsGiven ([]) out.old out.new (O.written sink.old) (O.written sink.new)) }
    ensures cut_off { OnErr result (IsCutOff ([]) out.old out.new (O.written sink.old) (O.written sink.new) (O.faults sink.old) (O.faults sink.new)) }
    ensures silent { out.old.failed ≡ true → sink.new ≡ sink.old }
    ensures never_falls { O.faults sink.old ≤ O.faults sink.new }
{
    out.text(sink, b"")
}

/// Gives a line for each name in the script's order: the name, its kind and its type, with one space
/// between. It takes no memory. Where it fails, a front of what the outlet held and of the text went
/// out.
pub fn write_types<O: Sink>(script: &Script, out: &mut Outlet, sink: &mut O) -> Result<(), Failed>
    ensures given { OnOk result (IsGiven (types_text (map statement_of script.now)) out.old out.new (O.written sink.old) (O.written sink.new)) }
    ensures cut_off { OnErr result (IsCutOff (types_text (map statement_of script.now)) out.old out.new (O.written sink.old) (O.written sink.new) (O.faults sink.old) (O.faults sink.new)) }
    ensures silent { out.old.failed ≡ true → sink.new ≡ sink.old }
    ensures never_falls { O.faults sink.old ≤ O.faults sink.new }
{
    write_nothing(out, sink)?;
    write_lines(script.as_slice(), out, sink)
}
