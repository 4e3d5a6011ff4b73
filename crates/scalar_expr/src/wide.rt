//! Steps over columns of numbers of 128 bits.

ghost use Rattle.std.specs.Prelude.{◌≡◌, ℕ, ◌+◌, ◌<◌, ◌≤◌, ◌++◌, [], pos, length, map, take, drop, slice_index_or};
ghost use Rattle.std.specs.Prelude.{List as Seq};
ghost use Rattle.std.specs.Int.{w128};
ghost use Rattle.std.specs.List.{AllByRecursion};
ghost use Rattle.std.specs.Prelude.{ℤ};
ghost use Rattle.scalar_expr.specs.Steps.{IsFound, IsSafe, AreSafe, made, operand_in, step_in, run_in, numbers, out_of, height_after};
ghost use Rattle.scalar_expr.specs.Values.{chosen};
ghost use Rattle.scalar_expr.specs.Lanes.{numbers_in, row_at, IsColumnOf, wide_number_at, WideCovers};

use crate::column::Column;
use crate::pair::Pair;
use crate::step::{Calc, Operand, Step};
use crate::wide_words::{wide_choice, wide_made};

// Where a step reads a number of each element: a component, a column of the stack, a literal, or
// the column that its results go to, which holds an operand until then.
#[derive(Clone, Copy, Debug)]
enum Source<'c, 's> {
    Narrow(&'c [i64]),
    Wide(&'c [i128]),
    Place(&'s [i128; 256]),
    Const(i64),
    Held,
}

/// Runs the steps on the elements of so many columns. The answer is how many columns the stack then
/// has.
pub(crate) fn run_wide(
    steps: &[Step],
    columns: &[Column],
    count: usize,
    stack: &mut [[i128; 256]],
) -> usize
    requires few { count ≤ 256 }
    requires columns { AllByRecursion (IsColumnOf count) columns.now }
    requires safe { AreSafe (length columns.now) (length stack.old) steps.now 0 }
    ensures rows { (j : ℕ) → j < count → row_at (take result stack.new) j ≡ run_in (numbers w128 (row_at (map numbers_in columns.now) j)) steps.now [] }
    ensures height { result ≡ height_after steps.now 0 }
{
    let mut top = 0;
    for step in steps {
        top = take_step(*step, columns, count, stack, top);
    }
    top
}

// Takes one step, and tells how many columns the stack then has.
#[inline(always)]
fn take_step(
    step: Step,
    columns: &[Column],
    count: usize,
    stack: &mut [[i128; 256]],
    top: usize,
) -> usize
    requires few { count ≤ 256 }
    requires columns { AllByRecursion (IsColumnOf count) columns.now }
    requires within { top ≤ length stack.old }
    requires safe { IsSafe (length columns.now) (length stack.old) top step }
    ensures rows { (j : ℕ) → j < count → row_at (take result stack.new) j ≡ step_in (numbers w128 (row_at (map numbers_in columns.now) j)) step (row_at (take top stack.old) j) }
    ensures top { result ≡ out_of step + 1 }
{
    match step {
        Step::Two(op, a, b, out) => {
            let (low, above) = stack.split_at_mut(out + 1);
            let x = source_of(a, columns, above, out, count);
            let y = source_of(b, columns, above, out, count);
            calculate(op, &mut low[out], x, y, count);
            out + 1
        }
        Step::Cond(c, a, b, out) => {
            let (low, above) = stack.split_at_mut(out + 1);
            let z = source_of(c, columns, above, out, count);
            let x = source_of(a, columns, above, out, count);
            let y = source_of(b, columns, above, out, count);
            choose(&mut low[out], z, x, y, count);
            out + 1
        }
    }
}

// Where an operand is read. The stack's columns from the one above `out` on are `above`.
#[inline(always)]
fn source_of<'c, 's>(
    operand: Operand,
    columns: &[Column<'c>],
    above: &'s [[i128; 256]],
    out: usize,
    count: usize,
) -> Source<'c, 's>
    requires few { count ≤ 256 }
    requires columns { AllByRecursion (IsColumnOf count) columns.now }
    requires found { IsFound (length columns.now) out (out + 1 + length above.now) operand }
    ensures covers { WideCovers count result }
    ensures value { (j : ℕ) → j < count → (low : Seq (Seq ℤ)) → length low ≡ out + 1
        → wide_number_at result (slice_index_or low out []) j ≡ operand_in (numbers w128 (row_at (map numbers_in columns.now) j)) (row_at (low ++ above.now) j) operand }
{
    match operand {
        Operand::Part(i) => return column_at(columns, i as usize, count),
        Operand::Const(n) => Source::Const(n),
        Operand::Place(k) => {
            if k == out {
                Source::Held
            } else {
                Source::Place(&above[k - out - 1])
            }
        }
    }
}

// The column of a component.
#[inline(always)]
fn column_at<'c, 's>(columns: &[Column<'c>], i: usize, count: usize) -> Source<'c, 's>
    requires columns { AllByRecursion (IsColumnOf count) columns.now }
    requires there { i < length columns.now }
    ensures value { (held : Seq ℤ) (j : ℕ) → wide_number_at result held j ≡ slice_index_or (slice_index_or (map numbers_in columns.now) i []) j (pos 0) }
    ensures covers { WideCovers count result }
{
    match columns[i] {
        Column::Narrow(column) => Source::Narrow(column),
        Column::Wide(column) => Source::Wide(column),
    }
}

// Computes an operator for each of so many elements. Each operator has loops of its own, which the
// compiler makes of the one below.
fn calculate(op: Calc, out: &mut [i128; 256], a: Source, b: Source, count: usize)
    requires few { count ≤ 256 }
    requires first { WideCovers count a }
    requires second { WideCovers count b }
    ensures value { (j : ℕ) → j < count → slice_index_or out.new j (pos 0) ≡ made w128 op (wide_number_at a.entry out.old j) (wide_number_at b.entry out.old j) }
{
    match op {
        Calc::Two(Pair::Add) => by_source(Calc::Two(Pair::Add), out, a, b, count),
        Calc::Two(Pair::Sub) => by_source(Calc::Two(Pair::Sub), out, a, b, count),
        Calc::Two(Pair::Mul) => by_source(Calc::Two(Pair::Mul), out, a, b, count),
        Calc::Two(Pair::Min) => by_source(Calc::Two(Pair::Min), out, a, b, count),
        Calc::Two(Pair::Max) => by_source(Calc::Two(Pair::Max), out, a, b, count),
        Calc::Two(Pair::Less) => by_source(Calc::Two(Pair::Less), out, a, b, count),
        Calc::Two(Pair::Same) => by_source(Calc::Two(Pair::Same), out, a, b, count),
        Calc::Two(Pair::And) => by_source(Calc::Two(Pair::And), out, a, b, count),
        Calc::Two(Pair::Or) => by_source(Calc::Two(Pair::Or), out, a, b, count),
        Calc::Two(Pair::Xor) => by_source(Calc::Two(Pair::Xor), out, a, b, count),
        Calc::WrapAdd => by_source(Calc::WrapAdd, out, a, b, count),
        Calc::WrapSub => by_source(Calc::WrapSub, out, a, b, count),
        Calc::Wrap => by_source(Calc::Wrap, out, a, b, count),
        Calc::Copy => by_source(Calc::Copy, out, a, b, count),
    }
}

// The same, with a loop of its own for each place where operands usually are. Elsewhere the
// operands are copied first.
#[inline(always)]
fn by_source(op: Calc, out: &mut [i128; 256], a: Source, b: Source, count: usize)
    requires few { count ≤ 256 }
    requires first { WideCovers count a }
    requires second { WideCovers count b }
    ensures value { (j : ℕ) → j < count → slice_index_or out.new j (pos 0) ≡ made w128 op (wide_number_at a.entry out.old j) (wide_number_at b.entry out.old j) }
{
    match (a, b) {
        (Source::Narrow(p), Source::Narrow(q)) => {
            fill(op, out, Source::Narrow(p), Source::Narrow(q), count)
        }
        (Source::Narrow(p), Source::Const(n)) => {
            fill(op, out, Source::Narrow(p), Source::Const(n), count)
        }
        (Source::Wide(p), Source::Wide(q)) => {
            fill(op, out, Source::Wide(p), Source::Wide(q), count)
        }
        (Source::Wide(p), Source::Const(n)) => {
            fill(op, out, Source::Wide(p), Source::Const(n), count)
        }
        (Source::Held, Source::Const(n)) => fill(op, out, Source::Held, Source::Const(n), count),
        (Source::Held, Source::Place(q)) => fill(op, out, Source::Held, Source::Place(q), count),
        (a, b) => {
            let x = copied(a, out, count);
            let y = copied(b, out, count);
            fill(op, out, Source::Place(&x), Source::Place(&y), count)
        }
    }
}

// The loop.
#[inline(always)]
fn fill(op: Calc, out: &mut [i128; 256], a: Source, b: Source, count: usize)
    requires few { count ≤ 256 }
    requires first { WideCovers count a }
    requires second { WideCovers count b }
    ensures value { (j : ℕ) → j < count → slice_index_or out.new j (pos 0) ≡ made w128 op (wide_number_at a.entry out.old j) (wide_number_at b.entry out.old j) }
{
    for i in 0..count {
        let x = number(a, out, i);
        let y = number(b, out, i);
        out[i] = wide_made(op, x, y);
    }
}

// Chooses for each of so many elements.
fn choose(out: &mut [i128; 256], c: Source, a: Source, b: Source, count: usize)
    requires few { count ≤ 256 }
    requires condition { WideCovers count c }
    requires first { WideCovers count a }
    requires second { WideCovers count b }
    ensures value { (j : ℕ) → j < count → slice_index_or out.new j (pos 0) ≡ chosen (wide_number_at c.entry out.old j) (wide_number_at a.entry out.old j) (wide_number_at b.entry out.old j) }
{
    let z = copied(c, out, count);
    let x = copied(a, out, count);
    let y = copied(b, out, count);
    choose_columns(out, &z, &x, &y, count);
}

// The same from three columns.
fn choose_columns(
    out: &mut [i128; 256],
    c: &[i128; 256],
    a: &[i128; 256],
    b: &[i128; 256],
    count: usize,
)
    requires few { count ≤ 256 }
    ensures value { (j : ℕ) → j < count → slice_index_or out.new j (pos 0) ≡ chosen (slice_index_or c.now j (pos 0)) (slice_index_or a.now j (pos 0)) (slice_index_or b.now j (pos 0)) }
{
    for i in 0..count {
        out[i] = wide_choice(c[i], a[i], b[i]);
    }
}

// The numbers of an operand as a column.
fn copied(source: Source, held: &[i128; 256], count: usize) -> [i128; 256]
    requires few { count ≤ 256 }
    requires covers { WideCovers count source }
    ensures value { (j : ℕ) → j < count → slice_index_or result j (pos 0) ≡ wide_number_at source.entry held.now j }
{
    let mut column = [0i128; 256];
    match source {
        Source::Narrow(c) => copy(&mut column, Source::Narrow(c), held, count),
        Source::Wide(c) => copy(&mut column, Source::Wide(c), held, count),
        Source::Place(c) => copy(&mut column, Source::Place(c), held, count),
        Source::Const(n) => copy(&mut column, Source::Const(n), held, count),
        Source::Held => copy(&mut column, Source::Held, held, count),
    }
    column
}

#[inline(always)]
fn copy(column: &mut [i128; 256], source: Source, held: &[i128; 256], count: usize)
    requires few { count ≤ 256 }
    requires covers { WideCovers count source }
    ensures value { (j : ℕ) → j < count → slice_index_or column.new j (pos 0) ≡ wide_number_at source.entry held.now j }
{
    for i in 0..count {
        column[i] = number(source, held, i);
    }
}

// The number of the element at this place.
#[inline(always)]
fn number(source: Source, held: &[i128; 256], i: usize) -> i128
    requires within { i < 256 }
    requires covers { WideCovers (i + 1) source }
    ensures { result ≡ wide_number_at source.entry held.now i }
{
    match source {
        Source::Narrow(column) => column[i] as i128,
        Source::Wide(column) => column[i],
        Source::Place(column) => column[i],
        Source::Const(n) => n as i128,
        Source::Held => held[i],
    }
}
