//! Scalars are compiled into steps.

ghost use Rattle.std.specs.Prelude.{◌≡◌, ◌+◌, ◌<◌, ◌≤◌, ◌++◌, ◌∷◌, [], pos, max, length, IfOk, OnOk};
ghost use Rattle.scalar_expr.specs.Expr.{Expr, wrap as wrap_expr, cond as cond_expr};
ghost use Rattle.scalar_expr.specs.Columns.{columns_needed, columns_held};
ghost use Rattle.scalar_expr.specs.Views.{expr_of};
ghost use Rattle.scalar_expr.specs.Steps.{IsBegun, IsEmitted, IsBounded, IsExactCalc, IsRooted, held, calc_expr};

use crate::pair::Pair;
use crate::scalar::Scalar;
use crate::step::{Calc, Operand, Step};
use op_laws::ElemType;
use std::alloc::AllocError;

/// What a code is compiled for.
#[derive(Clone, Copy, Debug)]
pub(crate) struct Target {
    pub(crate) ty: ElemType,
    pub(crate) room: usize,
    pub(crate) narrow: bool,
}

/// Adds the steps of a scalar to a code that has so many numbers on the stack, and tells where its
/// value is found. A literal and a component have no step.
#[cycle(emit)]
pub(crate) fn emit(
    code: &mut Vec<Step>,
    target: &Target,
    place: usize,
    s: &Scalar,
) -> Result<Operand, AllocError>
    requires begun { IsBegun target.now.ty target.now.room target.now.narrow place code.old.items }
    requires bounded { IsBounded target.now.ty target.now.narrow (expr_of s.now) }
    requires room { place + columns_needed (expr_of s.now) ≤ target.now.room }
    requires small { target.now.room ≤ 64 }
    ensures { IfOk result (IsEmitted target.now.ty target.now.room target.now.narrow place code.old.items code.new.items (expr_of s.now)) }
{
    match s {
        Scalar::Lit(n) => Ok(Operand::Const(*n)),
        Scalar::Part(i) => Ok(Operand::Part(*i)),
        Scalar::Add(a, b) => emit_two(code, target, place, Calc::Two(Pair::Add), a, b),
        Scalar::Sub(a, b) => emit_two(code, target, place, Calc::Two(Pair::Sub), a, b),
        Scalar::Mul(a, b) => emit_two(code, target, place, Calc::Two(Pair::Mul), a, b),
        Scalar::Min(a, b) => emit_two(code, target, place, Calc::Two(Pair::Min), a, b),
        Scalar::Max(a, b) => emit_two(code, target, place, Calc::Two(Pair::Max), a, b),
        Scalar::Less(a, b) => emit_two(code, target, place, Calc::Two(Pair::Less), a, b),
        Scalar::Same(a, b) => emit_two(code, target, place, Calc::Two(Pair::Same), a, b),
        Scalar::And(a, b) => emit_two(code, target, place, Calc::Two(Pair::And), a, b),
        Scalar::Or(a, b) => emit_two(code, target, place, Calc::Two(Pair::Or), a, b),
        Scalar::Xor(a, b) => emit_two(code, target, place, Calc::Two(Pair::Xor), a, b),
        Scalar::Cond(c, a, b) => emit_choice(code, target, place, c, a, b),
        Scalar::Wrap(a) => match &**a {
            Scalar::Add(x, y) => emit_two(code, target, place, Calc::WrapAdd, x, y),
            Scalar::Sub(x, y) => emit_two(code, target, place, Calc::WrapSub, x, y),
            _ => emit_one(code, target, place, a),
        },
    }
}

// Adds the steps of an operator on two parts.
#[cycle(emit)]
fn emit_two(
    code: &mut Vec<Step>,
    target: &Target,
    place: usize,
    op: Calc,
    a: &Scalar,
    b: &Scalar,
) -> Result<Operand, AllocError>
    requires begun { IsBegun target.now.ty target.now.room target.now.narrow place code.old.items }
    requires first { IsBounded target.now.ty target.now.narrow (expr_of a.now) }
    requires second { IsBounded target.now.ty target.now.narrow (expr_of b.now) }
    requires exact { IsExactCalc target.now.ty target.now.narrow op (expr_of a.now) (expr_of b.now) }
    requires node { columns_held (calc_expr op (expr_of a.now) (expr_of b.now)) ≡ 1 }
    requires own_room { place < target.now.room }
    requires first_room { place + columns_needed (expr_of a.now) ≤ target.now.room }
    requires second_room { place + columns_held (expr_of a.now) + columns_needed (expr_of b.now) ≤ target.now.room }
    requires small { target.now.room ≤ 64 }
    ensures { IfOk result (IsEmitted target.now.ty target.now.room target.now.narrow place code.old.items code.new.items (calc_expr op (expr_of a.now) (expr_of b.now))) }
{
    let x = emit(code, target, place, a)?;
    let next = next_place(x, place);
    let y = emit(code, target, next, b)?;
    put(code, Step::Two(op, x, y, place))?;
    Ok(Operand::Place(place))
}

// Adds the steps of a wrapped number.
#[cycle(emit)]
fn emit_one(
    code: &mut Vec<Step>,
    target: &Target,
    place: usize,
    a: &Scalar,
) -> Result<Operand, AllocError>
    requires begun { IsBegun target.now.ty target.now.room target.now.narrow place code.old.items }
    requires bounded { IsBounded target.now.ty target.now.narrow (expr_of a.now) }
    requires own_room { place < target.now.room }
    requires room { place + columns_needed (expr_of a.now) ≤ target.now.room }
    requires small { target.now.room ≤ 64 }
    ensures { IfOk result (IsEmitted target.now.ty target.now.room target.now.narrow place code.old.items code.new.items (wrap_expr (expr_of a.now))) }
{
    let x = emit(code, target, place, a)?;
    put(code, Step::Two(Calc::Wrap, x, Operand::Const(0), place))?;
    Ok(Operand::Place(place))
}

// Adds the steps of a choice.
#[cycle(emit)]
fn emit_choice(
    code: &mut Vec<Step>,
    target: &Target,
    place: usize,
    c: &Scalar,
    a: &Scalar,
    b: &Scalar,
) -> Result<Operand, AllocError>
    requires begun { IsBegun target.now.ty target.now.room target.now.narrow place code.old.items }
    requires condition { IsBounded target.now.ty target.now.narrow (expr_of c.now) }
    requires first { IsBounded target.now.ty target.now.narrow (expr_of a.now) }
    requires second { IsBounded target.now.ty target.now.narrow (expr_of b.now) }
    requires own_room { place < target.now.room }
    requires condition_room { place + columns_needed (expr_of c.now) ≤ target.now.room }
    requires first_room { place + columns_held (expr_of c.now) + columns_needed (expr_of a.now) ≤ target.now.room }
    requires second_room { place + columns_held (expr_of c.now) + columns_held (expr_of a.now) + columns_needed (expr_of b.now) ≤ target.now.room }
    requires small { target.now.room ≤ 64 }
    ensures { IfOk result (IsEmitted target.now.ty target.now.room target.now.narrow place code.old.items code.new.items (cond_expr (expr_of c.now) (expr_of a.now) (expr_of b.now))) }
{
    let z = emit(code, target, place, c)?;
    let next = next_place(z, place);
    let x = emit(code, target, next, a)?;
    let last = next_place(x, next);
    let y = emit(code, target, last, b)?;
    put(code, Step::Cond(z, x, y, place))?;
    Ok(Operand::Place(place))
}

/// Adds the steps of a whole scalar, whose value then stands at the place.
pub(crate) fn emit_root(
    code: &mut Vec<Step>,
    target: &Target,
    place: usize,
    s: &Scalar,
) -> Result<(), AllocError>
    requires begun { IsBegun target.now.ty target.now.room target.now.narrow place code.old.items }
    requires bounded { IsBounded target.now.ty target.now.narrow (expr_of s.now) }
    requires room { place + max 1 (columns_needed (expr_of s.now)) ≤ target.now.room }
    requires small { target.now.room ≤ 64 }
    ensures { IfOk result (λ _. IsRooted target.now.ty target.now.room target.now.narrow place code.old.items code.new.items (expr_of s.now)) }
{
    let x = emit(code, target, place, s)?;
    match x {
        Operand::Place(_) => Ok(()),
        Operand::Part(_) => Ok(put(code, copy(x, place))?),
        Operand::Const(_) => Ok(put(code, copy(x, place))?),
    }
}

// The step that puts a literal or a component on the stack.
fn copy(x: Operand, place: usize) -> Step
    ensures { result ≡ Step.Two Calc.Copy x (Operand.Const (pos 0)) place }
{
    Step::Two(Calc::Copy, x, Operand::Const(0), place)
}

// The first free place above an operand.
fn next_place(x: Operand, place: usize) -> usize
    requires { place ≤ 64 }
    ensures { (s : Expr) → result ≡ place + length (held x s) }
{
    match x {
        Operand::Place(_) => place + 1,
        Operand::Part(_) | Operand::Const(_) => place,
    }
}

// Adds a step.
fn put(code: &mut Vec<Step>, step: Step) -> Result<(), AllocError>
    ensures { OnOk result (code.new.items ≡ code.old.items ++ step ∷ []) }
{
    code.push(step)?;
    Ok(())
}
