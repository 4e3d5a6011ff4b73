//! What no clause says: that functions are typed and compiled where there is memory, that values and
//! faults are those worked out apart from this crate, and that the columns give what one element
//! after another gives.

ghost use Rattle.std.specs.Prelude.{◌≡◌, ◌+◌, ◌*◌, ◌≤◌, length, IfOk};
ghost use Rattle.scalar_expr.specs.Expr.{nodes, nodes_in};
ghost use Rattle.scalar_expr.specs.Views.{expr_of, scalars_of};

use op_laws::{ElemType, MAX_ELEMENTS, Tup, Width};
use scalar_expr::{Column, Func, Pair, Scalar, TypeFault, Typed, typed};
use std::alloc::{AllocError, Global};
use std::process::Abort;
use std::test::Fail;

const W64: Width = Width::W64;

const W96: Width = Width::W96;

const W128: Width = Width::W128;

const MIN_64: i128 = -9223372036854775808;

const MAX_64: i128 = 9223372036854775807;

const MIN_96: i128 = -39614081257132168796771975168;

const MAX_96: i128 = 39614081257132168796771975167;

const MIN_128: i128 = -170141183460469231731687303715884105728;

const MAX_128: i128 = 170141183460469231731687303715884105727;

// A scalar of the first three components.
#[derive(Clone, Copy, Debug)]
enum Form {
    Lit(i64),
    Part(u32),
    Two(Pair),
    Cond,
    Wrap,
    WrapAdd,
    WrapSub,
}

fn scalar_of(alloc: Global, form: Form) -> Result<Scalar, AllocError>
    ensures { IfOk result (λ s. nodes (expr_of s) ≤ 4) }
{
    match form {
        Form::Lit(n) => Ok(Scalar::Lit(n)),
        Form::Part(i) => Ok(Scalar::Part(i)),
        Form::Two(op) => two(alloc, op, Scalar::Part(0), Scalar::Part(1)),
        Form::Cond => {
            let c = Box::new(alloc, Scalar::Part(0))?;
            let a = Box::new(alloc, Scalar::Part(1))?;
            let b = Box::new(alloc, Scalar::Part(2))?;
            Ok(Scalar::Cond(c, a, b))
        }
        Form::Wrap => wrap(alloc, Scalar::Part(0)),
        Form::WrapAdd => {
            let sum = two(alloc, Pair::Add, Scalar::Part(0), Scalar::Part(1))?;
            wrap(alloc, sum)
        }
        Form::WrapSub => {
            let difference = two(alloc, Pair::Sub, Scalar::Part(0), Scalar::Part(1))?;
            wrap(alloc, difference)
        }
    }
}

fn wrap(alloc: Global, a: Scalar) -> Result<Scalar, AllocError>
    ensures { IfOk result (λ s. nodes (expr_of s) ≡ nodes (expr_of a) + 1) }
{
    Ok(Scalar::Wrap(Box::new(alloc, a)?))
}

fn two(alloc: Global, op: Pair, a: Scalar, b: Scalar) -> Result<Scalar, AllocError>
    ensures { IfOk result (λ s. nodes (expr_of s) ≡ nodes (expr_of a) + nodes (expr_of b) + 1) }
{
    let a = Box::new(alloc, a)?;
    let b = Box::new(alloc, b)?;
    Ok(match op {
        Pair::Add => Scalar::Add(a, b),
        Pair::Sub => Scalar::Sub(a, b),
        Pair::Mul => Scalar::Mul(a, b),
        Pair::Min => Scalar::Min(a, b),
        Pair::Max => Scalar::Max(a, b),
        Pair::Less => Scalar::Less(a, b),
        Pair::Same => Scalar::Same(a, b),
        Pair::And => Scalar::And(a, b),
        Pair::Or => Scalar::Or(a, b),
        Pair::Xor => Scalar::Xor(a, b),
    })
}

// A scalar in so many wraps.
fn wrapped(alloc: Global, s: Scalar, times: u32) -> Result<Scalar, AllocError>
    ensures { IfOk result (λ r. nodes (expr_of r) ≡ nodes (expr_of s) + times) }
{
    let mut whole = s;
    for _i in 0..times {
        whole = wrap(alloc, whole)?;
    }
    Ok(whole)
}

// A width, an element of three numbers of it, and the width and the value that a form has there.
type Row = (Width, [i128; 3], Width, i128);

fn check(rt: &impl Abort, alloc: Global, form: Form, rows: &[Row]) -> Result<(), TypeFault> {
    for (w, e, gives, value) in rows {
        let ty = ElemType::one(*w).push(*w).push(*w);
        let f = typed(alloc, &Func::One(scalar_of(alloc, form)?), ty)?;
        let t = Tup::three(e[0], e[1], e[2]);
        assert_eq!(rt; f.gives(), ElemType::one(*gives), "{form:?} on {w:?}");
        assert!(rt; f.takes().admits(t), "{t:?}");
        assert_eq!(rt; f.eval(t), Tup::one(*value), "{form:?} of {t:?}");
    }
    Ok(())
}

fn sums(rt: &impl Abort, alloc: Global) -> Result<(), TypeFault> {
    let rows = [
        (W64, [MAX_64, MAX_64, 0], W96, 18446744073709551614),
        (W64, [MIN_64, MIN_64, 0], W96, -18446744073709551616),
        (
            W96,
            [MAX_96, MAX_96, 0],
            W128,
            79228162514264337593543950334,
        ),
        (
            W96,
            [MIN_96, MIN_96, 0],
            W128,
            -79228162514264337593543950336,
        ),
    ];
    check(rt, alloc, Form::Two(Pair::Add), &rows)?;
    let rows = [
        (W64, [MAX_64, MIN_64, 0], W96, 18446744073709551615),
        (W64, [MIN_64, MAX_64, 0], W96, -18446744073709551615),
        (
            W96,
            [MAX_96, MIN_96, 0],
            W128,
            79228162514264337593543950335,
        ),
        (
            W96,
            [MIN_96, MAX_96, 0],
            W128,
            -79228162514264337593543950335,
        ),
    ];
    check(rt, alloc, Form::Two(Pair::Sub), &rows)
}

fn products(rt: &impl Abort, alloc: Global) -> Result<(), TypeFault> {
    let rows = [
        (W64, [MAX_64, MAX_64, 0], W64, 1),
        (W64, [MIN_64, -1, 0], W64, MIN_64),
        (W64, [MAX_64, 2, 0], W64, -2),
        (W96, [MAX_96, MAX_96, 0], W64, 1),
        (W96, [MAX_96, MIN_96, 0], W64, 0),
        (W128, [MAX_128, MAX_128, 0], W64, 1),
        (W128, [MAX_128, MIN_128, 0], W64, 0),
    ];
    check(rt, alloc, Form::Two(Pair::Mul), &rows)
}

fn bounds(rt: &impl Abort, alloc: Global) -> Result<(), TypeFault> {
    let rows = [
        (W64, [MAX_64, MIN_64, 0], W64, MIN_64),
        (W96, [MAX_96, MIN_96, 0], W96, MIN_96),
        (W128, [MAX_128, MIN_128, 0], W128, MIN_128),
    ];
    check(rt, alloc, Form::Two(Pair::Min), &rows)?;
    let rows = [
        (W64, [MAX_64, MIN_64, 0], W64, MAX_64),
        (W96, [MAX_96, MIN_96, 0], W96, MAX_96),
        (W128, [MAX_128, MIN_128, 0], W128, MAX_128),
    ];
    check(rt, alloc, Form::Two(Pair::Max), &rows)
}

fn comparisons(rt: &impl Abort, alloc: Global) -> Result<(), TypeFault> {
    let rows = [
        (W64, [MIN_64, MAX_64, 0], W64, 1),
        (W64, [MAX_64, MAX_64, 0], W64, 0),
        (W96, [MIN_96, MAX_96, 0], W64, 1),
        (W96, [MAX_96, MAX_96, 0], W64, 0),
        (W128, [MIN_128, MAX_128, 0], W64, 1),
        (W128, [MAX_128, MAX_128, 0], W64, 0),
    ];
    check(rt, alloc, Form::Two(Pair::Less), &rows)?;
    let rows = [
        (W64, [MAX_64, MIN_64, 0], W64, 0),
        (W64, [MIN_64, MIN_64, 0], W64, 1),
        (W96, [MAX_96, MIN_96, 0], W64, 0),
        (W96, [MIN_96, MIN_96, 0], W64, 1),
        (W128, [MAX_128, MIN_128, 0], W64, 0),
        (W128, [MIN_128, MIN_128, 0], W64, 1),
    ];
    check(rt, alloc, Form::Two(Pair::Same), &rows)
}

fn bits(rt: &impl Abort, alloc: Global) -> Result<(), TypeFault> {
    let rows = [
        (W64, [MAX_64, MIN_64, 0], W64, 0),
        (W64, [-1, MIN_64, 0], W64, MIN_64),
        (W64, [6, 3, 0], W64, 2),
    ];
    check(rt, alloc, Form::Two(Pair::And), &rows)?;
    let rows = [
        (W64, [MAX_64, MIN_64, 0], W64, -1),
        (W64, [-1, MIN_64, 0], W64, -1),
        (W64, [6, 3, 0], W64, 7),
    ];
    check(rt, alloc, Form::Two(Pair::Or), &rows)?;
    let rows = [
        (W64, [MAX_64, MIN_64, 0], W64, -1),
        (W64, [-1, MIN_64, 0], W64, MAX_64),
        (W64, [6, 3, 0], W64, 5),
    ];
    check(rt, alloc, Form::Two(Pair::Xor), &rows)
}

fn choices(rt: &impl Abort, alloc: Global) -> Result<(), TypeFault> {
    let rows = [
        (W64, [MIN_64, MAX_64, MIN_64], W64, MAX_64),
        (W64, [0, MAX_64, MIN_64], W64, MIN_64),
        (W96, [MIN_96, MAX_96, MIN_96], W96, MAX_96),
        (W96, [0, MAX_96, MIN_96], W96, MIN_96),
        (W128, [MIN_128, MAX_128, MIN_128], W128, MAX_128),
        (W128, [0, MAX_128, MIN_128], W128, MIN_128),
    ];
    check(rt, alloc, Form::Cond, &rows)
}

fn wraps(rt: &impl Abort, alloc: Global) -> Result<(), TypeFault> {
    let rows = [
        (W64, [MIN_64, 0, 0], W64, MIN_64),
        (W64, [MAX_64, 0, 0], W64, MAX_64),
        (W96, [MIN_96, 0, 0], W64, 0),
        (W96, [MAX_96, 0, 0], W64, -1),
        (W128, [MIN_128, 0, 0], W64, 0),
        (W128, [MAX_128, 0, 0], W64, -1),
    ];
    check(rt, alloc, Form::Wrap, &rows)?;
    let rows = [
        (W64, [MAX_64, 1, 0], W64, MIN_64),
        (W96, [MAX_96, 1, 0], W64, 0),
    ];
    check(rt, alloc, Form::WrapAdd, &rows)?;
    let rows = [
        (W64, [MIN_64, 1, 0], W64, MAX_64),
        (W96, [MIN_96, 1, 0], W64, -1),
    ];
    check(rt, alloc, Form::WrapSub, &rows)
}

fn atoms(rt: &impl Abort, alloc: Global) -> Result<(), TypeFault> {
    let rows = [
        (W64, [0, MIN_64, 0], W64, MIN_64),
        (W96, [0, MIN_96, 0], W96, MIN_96),
        (W128, [0, MIN_128, 0], W128, MIN_128),
    ];
    check(rt, alloc, Form::Part(1), &rows)?;
    let rows = [
        (W64, [0, 0, MAX_64], W64, MAX_64),
        (W96, [0, 0, MAX_96], W96, MAX_96),
        (W128, [0, 0, MAX_128], W128, MAX_128),
    ];
    check(rt, alloc, Form::Part(2), &rows)?;
    let rows = [(W64, [0, 0, 0], W64, MAX_64)];
    check(rt, alloc, Form::Lit(i64::MAX), &rows)?;
    let rows = [(W128, [0, 0, 0], W64, MIN_64)];
    check(rt, alloc, Form::Lit(i64::MIN), &rows)
}

#[test]
fn a_form_has_its_width_and_its_value_at_the_ends_of_every_width(
    rt: HostRuntime,
) -> Result<(), Fail> {
    let alloc = rt.alloc();
    sums(&rt, alloc)?;
    products(&rt, alloc)?;
    bounds(&rt, alloc)?;
    comparisons(&rt, alloc)?;
    bits(&rt, alloc)?;
    choices(&rt, alloc)?;
    wraps(&rt, alloc)?;
    atoms(&rt, alloc)?;
    Ok(())
}

// What typing a function of one or two scalars on one number of this width answers.
fn fault_of(alloc: Global, f: &Func, w: Width) -> Option<TypeFault>
    requires { nodes_in (scalars_of f.now) ≤ MAX_ELEMENTS }
{
    typed(alloc, f, ElemType::one(w)).err()
}

#[test]
fn the_first_fault_in_postorder_counts(rt: HostRuntime) -> Result<(), Fail> {
    let alloc = rt.alloc();
    let part = Scalar::Part;
    let lit = Scalar::Lit;
    // (+ #0 #1)
    let f = Func::One(two(alloc, Pair::Add, part(0), part(1))?);
    assert_eq!(rt; fault_of(alloc, &f, W64), Some(TypeFault::NoPart(1)));
    // (and (+ #0 #0) 1), and the same with a component that isn't there after the bits
    let sum = two(alloc, Pair::Add, part(0), part(0))?;
    let f = Func::One(two(alloc, Pair::And, sum, lit(1))?);
    assert_eq!(rt; fault_of(alloc, &f, W64), Some(TypeFault::TooWide(4)));
    let sum = two(alloc, Pair::Add, part(0), part(0))?;
    let f = Func::One(two(alloc, Pair::And, sum, part(1))?);
    assert_eq!(rt; fault_of(alloc, &f, W64), Some(TypeFault::NoPart(3)));
    // (tuple (+ #0 #0) #2)
    let f = Func::Two(two(alloc, Pair::Add, part(0), part(0))?, part(2));
    assert_eq!(rt; fault_of(alloc, &f, W64), Some(TypeFault::NoPart(3)));
    // (- #0 1) on w128
    let f = Func::One(two(alloc, Pair::Sub, part(0), lit(1))?);
    assert_eq!(rt; fault_of(alloc, &f, W128), Some(TypeFault::TooWide(2)));
    assert_eq!(rt; fault_of(alloc, &f, W96), None);
    // a depth of 30, and of 31
    let f = Func::One(wrapped(alloc, part(0), 29)?);
    assert_eq!(rt; fault_of(alloc, &f, W64), None);
    let f = Func::One(wrapped(alloc, part(0), 30)?);
    assert_eq!(rt; fault_of(alloc, &f, W64), Some(TypeFault::TooDeep(30)));
    // at one node too deep comes before too wide
    let deep = wrapped(alloc, part(0), 29)?;
    let f = Func::One(two(alloc, Pair::Add, deep, part(0))?);
    assert_eq!(rt; fault_of(alloc, &f, W128), Some(TypeFault::TooDeep(31)));
    // far too deep, with and without an earlier fault
    let f = Func::One(wrapped(alloc, part(0), 5000)?);
    assert_eq!(rt; fault_of(alloc, &f, W64), Some(TypeFault::TooDeep(30)));
    let f = Func::One(wrapped(alloc, part(1), 5000)?);
    assert_eq!(rt; fault_of(alloc, &f, W64), Some(TypeFault::NoPart(0)));
    let deep = wrapped(alloc, part(0), 40)?;
    let f = Func::One(two(
        alloc,
        Pair::And,
        two(alloc, Pair::Add, lit(1), lit(2))?,
        deep,
    )?);
    assert_eq!(rt; fault_of(alloc, &f, W64), Some(TypeFault::TooDeep(33)));
    Ok(())
}

// A function gives the same by columns as element by element.
fn compare(rt: &impl Abort, name: &str, f: &Typed, x: &[i64], y: &[i64], wide: &[i128])
    requires x { length x.now ≡ 256 }
    requires y { length y.now ≡ 256 }
    requires wide { length wide.now ≡ 256 }
{
    let mut stack = [[0i64; 256]; 64];
    let mut wide_stack = [[0i128; 256]; 64];
    let count = f.gives().len();
    assert!(rt; f.room() <= 64);
    assert_eq!(rt; f.takes().len(), 2);
    if f.is_narrow() {
        f.eval_narrow(&[Column::Narrow(x), Column::Narrow(y)], 256, &mut stack);
    }
    f.eval_wide(
        &[Column::Narrow(x), Column::Wide(wide)],
        256,
        &mut wide_stack,
    );
    for j in 0..256 {
        let t = Tup::two(x[j] as i128, y[j] as i128);
        assert!(rt; f.takes().admits(t));
        let value = f.eval(t);
        assert_eq!(rt; value.len(), count);
        for k in 0..count {
            assert_eq!(rt;
                wide_stack[k][j],
                value.at(k),
                "{name}: component {k} of {t:?}"
            );
            if f.is_narrow() {
                assert_eq!(rt;
                    stack[k][j] as i128,
                    value.at(k),
                    "{name}: component {k} of {t:?}"
                );
            }
        }
    }
}

// (xor (min #0 1) (xor (min #0 1) ..)), with so many operators outside
fn nested(alloc: Global, times: u32) -> Result<Scalar, AllocError>
    ensures { IfOk result (λ s. nodes (expr_of s) ≤ 4 * times + 1) }
{
    let mut whole = Scalar::Part(1);
    for _i in 0..times {
        let first = two(alloc, Pair::Min, Scalar::Part(0), Scalar::Lit(1))?;
        whole = two(alloc, Pair::Xor, first, whole)?;
    }
    Ok(whole)
}

// (if (< #0 #1) (max #0 3) (wrap (- #0 #1)))
fn chosen(alloc: Global) -> Result<Scalar, AllocError>
    ensures { IfOk result (λ s. nodes (expr_of s) ≤ 20) }
{
    let c = Box::new(alloc, scalar_of(alloc, Form::Two(Pair::Less))?)?;
    let a = Box::new(
        alloc,
        two(alloc, Pair::Max, Scalar::Part(0), Scalar::Lit(3))?,
    )?;
    let b = Box::new(alloc, scalar_of(alloc, Form::WrapSub)?)?;
    Ok(Scalar::Cond(c, a, b))
}

// (* (+ #0 #1) (- 5 #1))
fn wide_product(alloc: Global) -> Result<Scalar, AllocError>
    ensures { IfOk result (λ s. nodes (expr_of s) ≤ 20) }
{
    let sum = scalar_of(alloc, Form::Two(Pair::Add))?;
    let difference = two(alloc, Pair::Sub, Scalar::Lit(5), Scalar::Part(1))?;
    two(alloc, Pair::Mul, sum, difference)
}

#[test]
fn columns_give_what_elements_give(rt: HostRuntime) -> Result<(), Fail> {
    let alloc = rt.alloc();
    let mut x = [0i64; 256];
    let mut y = [0i64; 256];
    let mut wide = [0i128; 256];
    let mut seed: u64 = 1;
    for j in 0..256 {
        seed = seed
            .wrapping_mul(6_364_136_223_846_793_005)
            .wrapping_add(1_442_695_040_888_963_407);
        x[j] = seed.cast_signed();
        y[j] = (seed >> 60).cast_signed();
        wide[j] = (seed >> 60) as i128;
    }
    let ty = ElemType::one(W64).push(W64);
    let narrow = [
        (
            "a tuple",
            Func::Two(Scalar::Part(1), scalar_of(alloc, Form::Two(Pair::Xor))?),
        ),
        (
            "a choice",
            Func::Three(Scalar::Lit(-5), chosen(alloc)?, Scalar::Part(0)),
        ),
        ("nested", Func::One(nested(alloc, 12)?)),
    ];
    for (name, f) in &narrow {
        let f = typed(alloc, f, ty)?;
        assert!(rt; f.is_narrow(), "{name}");
        compare(&rt, name, &f, &x, &y, &wide);
    }
    let f = Func::Four(
        scalar_of(alloc, Form::Two(Pair::Add))?,
        wide_product(alloc)?,
        chosen(alloc)?,
        Scalar::Part(1),
    );
    let f = typed(alloc, &f, ty)?;
    assert!(rt; !f.is_narrow());
    compare(&rt, "four", &f, &x, &y, &wide);
    Ok(())
}
