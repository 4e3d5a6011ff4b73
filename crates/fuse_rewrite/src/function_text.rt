//! Functions as text.
ghost use Rattle.std.specs.Prelude.{◌≡◌, ◌≤◌, ◌∷◌, ◌++◌, [], decimal, OnOk, OnErr};
ghost use Rattle.plain_text.specs.Given.{IsGiven, IsCutOff};
ghost use Rattle.scalar_expr.specs.Views.{expr_of, scalars_of};
ghost use Rattle.fuse_rewrite.specs.PlanText.{closing_text, scalar_text, function_text};
ghost use Rattle.std.specs.Fmt.{signed_decimal};

use data_text::{Failed, Outlet, Sink};
use scalar_expr::{Func, Scalar};

// A number of a component.
fn write_place<O: Sink>(i: u32, out: &mut Outlet, sink: &mut O) -> Result<(), Failed>
    ensures given { OnOk result (IsGiven (decimal i) out.old out.new (O.written sink.old) (O.written sink.new)) }
    ensures cut_off { OnErr result (IsCutOff (decimal i) out.old out.new (O.written sink.old) (O.written sink.new) (O.faults sink.old) (O.faults sink.new)) }
    ensures never_falls { O.faults sink.old ≤ O.faults sink.new }
{
    out.number(sink, i128::from(i))
}

// A component.
fn write_part<O: Sink>(i: u32, out: &mut Outlet, sink: &mut O) -> Result<(), Failed>
    ensures given { OnOk result (IsGiven (35 ∷ decimal i) out.old out.new (O.written sink.old) (O.written sink.new)) }
    ensures cut_off { OnErr result (IsCutOff (35 ∷ decimal i) out.old out.new (O.written sink.old) (O.written sink.new) (O.faults sink.old) (O.faults sink.new)) }
    ensures never_falls { O.faults sink.old ≤ O.faults sink.new }
{
    out.text(sink, b"#")?;
    write_place(i, out, sink)
}

/// A number.
pub(crate) fn write_literal<O: Sink>(n: &i64, out: &mut Outlet, sink: &mut O) -> Result<(), Failed>
    ensures given { OnOk result (IsGiven (signed_decimal n.now) out.old out.new (O.written sink.old) (O.written sink.new)) }
    ensures cut_off { OnErr result (IsCutOff (signed_decimal n.now) out.old out.new (O.written sink.old) (O.written sink.new) (O.faults sink.old) (O.faults sink.new)) }
    ensures never_falls { O.faults sink.old ≤ O.faults sink.new }
{
    out.number(sink, i128::from(*n))
}

// A space and a scalar.
#[cycle(scalar)]
fn write_after<O: Sink>(a: &Scalar, out: &mut Outlet, sink: &mut O) -> Result<(), Failed>
    ensures given { OnOk result (IsGiven (32 ∷ scalar_text (expr_of a.now)) out.old out.new (O.written sink.old) (O.written sink.new)) }
    ensures cut_off { OnErr result (IsCutOff (32 ∷ scalar_text (expr_of a.now)) out.old out.new (O.written sink.old) (O.written sink.new) (O.faults sink.old) (O.faults sink.new)) }
    ensures never_falls { O.faults sink.old ≤ O.faults sink.new }
{
    out.text(sink, b" ")?;
    write_scalar(a, out, sink)
}

// The last scalar, and the closing parenthesis.
#[cycle(scalar)]
fn write_last<O: Sink>(a: &Scalar, out: &mut Outlet, sink: &mut O) -> Result<(), Failed>
    ensures given { OnOk result (IsGiven (closing_text (scalar_text (expr_of a.now) ∷ [])) out.old out.new (O.written sink.old) (O.written sink.new)) }
    ensures cut_off { OnErr result (IsCutOff (closing_text (scalar_text (expr_of a.now) ∷ [])) out.old out.new (O.written sink.old) (O.written sink.new) (O.faults sink.old) (O.faults sink.new)) }
    ensures never_falls { O.faults sink.old ≤ O.faults sink.new }
{
    write_after(a, out, sink)?;
    out.text(sink, b")")
}

// The last two scalars, and the closing parenthesis.
#[cycle(scalar)]
fn write_last_two<O: Sink>(
    a: &Scalar,
    b: &Scalar,
    out: &mut Outlet,
    sink: &mut O,
) -> Result<(), Failed>
    ensures given { OnOk result (IsGiven (closing_text (scalar_text (expr_of a.now) ∷ scalar_text (expr_of b.now) ∷ [])) out.old out.new (O.written sink.old) (O.written sink.new)) }
    ensures cut_off { OnErr result (IsCutOff (closing_text (scalar_text (expr_of a.now) ∷ scalar_text (expr_of b.now) ∷ [])) out.old out.new (O.written sink.old) (O.written sink.new) (O.faults sink.old) (O.faults sink.new)) }
    ensures never_falls { O.faults sink.old ≤ O.faults sink.new }
{
    write_after(a, out, sink)?;
    write_last(b, out, sink)
}

// The last three scalars, and the closing parenthesis.
#[cycle(scalar)]
fn write_last_three<O: Sink>(
    a: &Scalar,
    b: &Scalar,
    c: &Scalar,
    out: &mut Outlet,
    sink: &mut O,
) -> Result<(), Failed>
    ensures given { OnOk result (IsGiven (closing_text (scalar_text (expr_of a.now) ∷ scalar_text (expr_of b.now) ∷ scalar_text (expr_of c.now) ∷ [])) out.old out.new (O.written sink.old) (O.written sink.new)) }
    ensures cut_off { OnErr result (IsCutOff (closing_text (scalar_text (expr_of a.now) ∷ scalar_text (expr_of b.now) ∷ scalar_text (expr_of c.now) ∷ [])) out.old out.new (O.written sink.old) (O.written sink.new) (O.faults sink.old) (O.faults sink.new)) }
    ensures never_falls { O.faults sink.old ≤ O.faults sink.new }
{
    write_after(a, out, sink)?;
    write_last_two(b, c, out, sink)
}

// What stands before the first scalar, and one scalar.
#[cycle(scalar)]
fn write_one<O: Sink>(
    front: &[u8],
    a: &Scalar,
    out: &mut Outlet,
    sink: &mut O,
) -> Result<(), Failed>
    ensures given { OnOk result (IsGiven (front.now ++ closing_text (scalar_text (expr_of a.now) ∷ [])) out.old out.new (O.written sink.old) (O.written sink.new)) }
    ensures cut_off { OnErr result (IsCutOff (front.now ++ closing_text (scalar_text (expr_of a.now) ∷ [])) out.old out.new (O.written sink.old) (O.written sink.new) (O.faults sink.old) (O.faults sink.new)) }
    ensures never_falls { O.faults sink.old ≤ O.faults sink.new }
{
    out.text(sink, front)?;
    write_last(a, out, sink)
}

// What stands before the first scalar, and two scalars.
#[cycle(scalar)]
fn write_two<O: Sink>(
    front: &[u8],
    a: &Scalar,
    b: &Scalar,
    out: &mut Outlet,
    sink: &mut O,
) -> Result<(), Failed>
    ensures given { OnOk result (IsGiven (front.now ++ closing_text (scalar_text (expr_of a.now) ∷ scalar_text (expr_of b.now) ∷ [])) out.old out.new (O.written sink.old) (O.written sink.new)) }
    ensures cut_off { OnErr result (IsCutOff (front.now ++ closing_text (scalar_text (expr_of a.now) ∷ scalar_text (expr_of b.now) ∷ [])) out.old out.new (O.written sink.old) (O.written sink.new) (O.faults sink.old) (O.faults sink.new)) }
    ensures never_falls { O.faults sink.old ≤ O.faults sink.new }
{
    out.text(sink, front)?;
    write_last_two(a, b, out, sink)
}

// What stands before the first scalar, and three scalars.
#[cycle(scalar)]
fn write_three<O: Sink>(
    front: &[u8],
    a: &Scalar,
    b: &Scalar,
    c: &Scalar,
    out: &mut Outlet,
    sink: &mut O,
) -> Result<(), Failed>
    ensures given { OnOk result (IsGiven (front.now ++ closing_text (scalar_text (expr_of a.now) ∷ scalar_text (expr_of b.now) ∷ scalar_text (expr_of c.now) ∷ [])) out.old out.new (O.written sink.old) (O.written sink.new)) }
    ensures cut_off { OnErr result (IsCutOff (front.now ++ closing_text (scalar_text (expr_of a.now) ∷ scalar_text (expr_of b.now) ∷ scalar_text (expr_of c.now) ∷ [])) out.old out.new (O.written sink.old) (O.written sink.new) (O.faults sink.old) (O.faults sink.new)) }
    ensures never_falls { O.faults sink.old ≤ O.faults sink.new }
{
    out.text(sink, front)?;
    write_last_three(a, b, c, out, sink)
}

// A scalar. It goes no deeper than the scalar is.
#[cycle(scalar)]
fn write_scalar<O: Sink>(s: &Scalar, out: &mut Outlet, sink: &mut O) -> Result<(), Failed>
    ensures given { OnOk result (IsGiven (scalar_text (expr_of s.now)) out.old out.new (O.written sink.old) (O.written sink.new)) }
    ensures cut_off { OnErr result (IsCutOff (scalar_text (expr_of s.now)) out.old out.new (O.written sink.old) (O.written sink.new) (O.faults sink.old) (O.faults sink.new)) }
    ensures never_falls { O.faults sink.old ≤ O.faults sink.new }
{
    match s {
        Scalar::Lit(n) => write_literal(n, out, sink),
        Scalar::Part(i) => write_part(*i, out, sink),
        Scalar::Add(a, b) => write_two(b"(+", a, b, out, sink),
        Scalar::Sub(a, b) => write_two(b"(-", a, b, out, sink),
        Scalar::Mul(a, b) => write_two(b"(*", a, b, out, sink),
        Scalar::Min(a, b) => write_two(b"(min", a, b, out, sink),
        Scalar::Max(a, b) => write_two(b"(max", a, b, out, sink),
        Scalar::Less(a, b) => write_two(b"(<", a, b, out, sink),
        Scalar::Same(a, b) => write_two(b"(=", a, b, out, sink),
        Scalar::And(a, b) => write_two(b"(and", a, b, out, sink),
        Scalar::Or(a, b) => write_two(b"(or", a, b, out, sink),
        Scalar::Xor(a, b) => write_two(b"(xor", a, b, out, sink),
        Scalar::Cond(c, a, b) => write_three(b"(if", c, a, b, out, sink),
        Scalar::Wrap(a) => write_one(b"(wrap", a, out, sink),
    }
}

// A scalar, and three more behind it.
fn write_last_four<O: Sink>(
    a: &Scalar,
    b: &Scalar,
    c: &Scalar,
    d: &Scalar,
    out: &mut Outlet,
    sink: &mut O,
) -> Result<(), Failed>
    ensures given { OnOk result (IsGiven (closing_text (scalar_text (expr_of a.now) ∷ scalar_text (expr_of b.now) ∷ scalar_text (expr_of c.now) ∷ scalar_text (expr_of d.now) ∷ [])) out.old out.new (O.written sink.old) (O.written sink.new)) }
    ensures cut_off { OnErr result (IsCutOff (closing_text (scalar_text (expr_of a.now) ∷ scalar_text (expr_of b.now) ∷ scalar_text (expr_of c.now) ∷ scalar_text (expr_of d.now) ∷ [])) out.old out.new (O.written sink.old) (O.written sink.new) (O.faults sink.old) (O.faults sink.new)) }
    ensures never_falls { O.faults sink.old ≤ O.faults sink.new }
{
    write_after(a, out, sink)?;
    write_last_three(b, c, d, out, sink)
}

// What stands before the first scalar, and four scalars.
fn write_four<O: Sink>(
    front: &[u8],
    a: &Scalar,
    b: &Scalar,
    c: &Scalar,
    d: &Scalar,
    out: &mut Outlet,
    sink: &mut O,
) -> Result<(), Failed>
    ensures given { OnOk result (IsGiven (front.now ++ closing_text (scalar_text (expr_of a.now) ∷ scalar_text (expr_of b.now) ∷ scalar_text (expr_of c.now) ∷ scalar_text (expr_of d.now) ∷ [])) out.old out.new (O.written sink.old) (O.written sink.new)) }
    ensures cut_off { OnErr result (IsCutOff (front.now ++ closing_text (scalar_text (expr_of a.now) ∷ scalar_text (expr_of b.now) ∷ scalar_text (expr_of c.now) ∷ scalar_text (expr_of d.now) ∷ [])) out.old out.new (O.written sink.old) (O.written sink.new) (O.faults sink.old) (O.faults sink.new)) }
    ensures never_falls { O.faults sink.old ≤ O.faults sink.new }
{
    out.text(sink, front)?;
    write_last_four(a, b, c, d, out, sink)
}

// A function.
fn write_function<O: Sink>(f: &Func, out: &mut Outlet, sink: &mut O) -> Result<(), Failed>
    ensures given { OnOk result (IsGiven (function_text (scalars_of f.now)) out.old out.new (O.written sink.old) (O.written sink.new)) }
    ensures cut_off { OnErr result (IsCutOff (function_text (scalars_of f.now)) out.old out.new (O.written sink.old) (O.written sink.new) (O.faults sink.old) (O.faults sink.new)) }
    ensures never_falls { O.faults sink.old ≤ O.faults sink.new }
{
    match f {
        Func::One(a) => write_scalar(a, out, sink),
        Func::Two(a, b) => write_two(b"(tuple", a, b, out, sink),
        Func::Three(a, b, c) => write_three(b"(tuple", a, b, c, out, sink),
        Func::Four(a, b, c, d) => write_four(b"(tuple", a, b, c, d, out, sink),
    }
}

/// A space and a function.
pub(crate) fn write_function_after<O: Sink>(
    f: &Func,
    out: &mut Outlet,
    sink: &mut O,
) -> Result<(), Failed>
    ensures given { OnOk result (IsGiven (32 ∷ function_text (scalars_of f.now)) out.old out.new (O.written sink.old) (O.written sink.new)) }
    ensures cut_off { OnErr result (IsCutOff (32 ∷ function_text (scalars_of f.now)) out.old out.new (O.written sink.old) (O.written sink.new) (O.faults sink.old) (O.faults sink.new)) }
    ensures never_falls { O.faults sink.old ≤ O.faults sink.new }
{
    out.text(sink, b" ")?;
    write_function(f, out, sink)
}
