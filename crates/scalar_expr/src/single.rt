//! Steps over one element.

ghost use Rattle.std.specs.Prelude.{◌≡◌, ◌+◌, ◌<◌, ◌≤◌, ◌∷◌, [], pos, length, take, drop, slice_index_or};
ghost use Rattle.std.specs.Int.{w128};
ghost use Rattle.scalar_expr.specs.Steps.{IsFound, IsSafe, AreSafe, put as put_on, operand_in, step_in, run_in, numbers, height_after, out_of};

use crate::step::{Operand, Step};
use crate::wide_words::{wide_choice, wide_made};
use op_laws::Tup;

/// Runs the steps on an element. The answer is the first `count` numbers of the stack.
#[inline(always)]
pub(crate) fn run(steps: &[Step], t: Tup, count: usize, stack: &mut [i128]) -> Tup
    requires safe { AreSafe (length t) (length stack.old) steps.now 0 }
    requires height { height_after steps.now 0 ≡ count }
    requires some { 1 ≤ count }
    requires few { count ≤ 4 }
    ensures { result ≡ run_in (numbers w128 t) steps.now [] }
{
    let mut top = 0;
    for step in steps {
        top = take_step(*step, t, stack, top);
    }
    element_of(stack, count)
}

// Takes one step, and tells how many numbers the stack then has.
#[inline(always)]
fn take_step(step: Step, t: Tup, stack: &mut [i128], top: usize) -> usize
    requires within { top ≤ length stack.old }
    requires safe { IsSafe (length t) (length stack.old) top step }
    ensures stack { take result stack.new ≡ step_in (numbers w128 t) step (take top stack.old) }
    ensures top { result ≡ out_of step + 1 }
{
    match step {
        Step::Two(op, a, b, out) => {
            let x = number(a, t, stack, top);
            let y = number(b, t, stack, top);
            put(stack, out, wide_made(op, x, y), top)
        }
        Step::Cond(c, a, b, out) => {
            let z = number(c, t, stack, top);
            let x = number(a, t, stack, top);
            let y = number(b, t, stack, top);
            put(stack, out, wide_choice(z, x, y), top)
        }
    }
}

// What an operand is.
#[inline(always)]
fn number(operand: Operand, t: Tup, stack: &[i128], top: usize) -> i128
    requires within { top ≤ length stack.now }
    requires found { IsFound (length t) 0 top operand }
    ensures { result ≡ operand_in (numbers w128 t) (take top stack.now) operand }
{
    match operand {
        Operand::Part(i) => t.at(i as usize),
        Operand::Const(n) => n as i128,
        Operand::Place(k) => stack[k],
    }
}

// Puts a number at a place of the stack, with nothing above it.
#[inline(always)]
fn put(stack: &mut [i128], out: usize, v: i128, top: usize) -> usize
    requires room { out < length stack.old }
    requires low { out ≤ top }
    requires within { top ≤ length stack.old }
    ensures stack { take result stack.new ≡ put_on out v (take top stack.old) }
    ensures top { result ≡ out + 1 }
{
    stack[out] = v;
    out + 1
}

// The element of the first numbers.
#[inline(always)]
fn element_of(stack: &[i128], count: usize) -> Tup
    requires within { count ≤ length stack.now }
    requires some { 1 ≤ count }
    requires few { count ≤ 4 }
    ensures { result ≡ take count stack.now }
{
    match count {
        1 => Tup::one(stack[0]),
        2 => Tup::two(stack[0], stack[1]),
        3 => Tup::three(stack[0], stack[1], stack[2]),
        4 => Tup::four(stack[0], stack[1], stack[2], stack[3]),
        _ => unreachable!(),
    }
}
