//! Scalars as they are written.
ghost use Rattle.std.specs.Prelude.{◌≡◌, ◌+◌, ◌≤◌, [], ◌∷◌, length, IfOk, IfSome, option_map};
ghost use Rattle.scalar_expr.specs.Expr.{nodes, two};
ghost use Rattle.scalar_expr.specs.Views.{expr_of};
ghost use Rattle.script_words.specs.Read.{Gives};
ghost use Rattle.script_words.specs.Functions.{part_number, atom_of, atom_at, wrapped, paired, chosen, parts_at, nested_at, scalar_at, is_open};
ghost use Rattle.script_words.specs.Views.{spelled_of};

use crate::calc::Calc;
use crate::fault::{LineFault, ScriptWhat};
use crate::numbers::short_number;
use crate::reading::{at, next, this_at};
use crate::spelled::SpelledScalar;
use crate::word::Word;
use scalar_expr::{Pair, Scalar};
use std::alloc::{AllocError, Global};

/// How many `(` may be open at once in a scalar.
pub(crate) const MAX_OPEN: u32 = 29;

fn part_number(text: &[u8]) -> Option<u32>
    ensures { result ≡ part_number text.now }
{
    if text == b"#0".as_slice() {
        return Some(0);
    }
    if text == b"#1".as_slice() {
        return Some(1);
    }
    if text == b"#2".as_slice() {
        return Some(2);
    }
    if text == b"#3".as_slice() {
        return Some(3);
    }
    None
}

fn atom_of(text: &[u8]) -> Option<Scalar>
    ensures value { option_map expr_of result ≡ atom_of text.now }
    ensures one { IfSome result (λ s. nodes (expr_of s) ≡ 1) }
{
    match part_number(text) {
        Some(i) => Some(Scalar::Part(i)),
        None => match short_number(text) {
            Some(n) => Some(Scalar::Lit(n)),
            None => None,
        },
    }
}

fn alone(alloc: Global, column: u32) -> Result<Vec<u32>, AllocError>
    ensures { IfOk result (λ v. v.items ≡ column ∷ []) }
{
    let mut columns = Vec::new(alloc);
    columns.push(column)?;
    Ok(columns)
}

#[tactic(auto, unfolding(crate::specs::Functions::atom_at))]
fn atom_at<'a, 'b>(
    alloc: Global,
    word: &Word<'a>,
    rest: &'b [Word<'a>],
) -> Result<(SpelledScalar, &'b [Word<'a>]), LineFault>
    ensures gives { Gives (λ x. (spelled_of x.0, x.1.now)) result (atom_at word.now rest.now) }
    ensures few { IfOk result (λ x. nodes (expr_of x.0.scalar) + length x.1.now ≡ length rest.now + 1) }
{
    match atom_of(word.text()) {
        None => Err(at(word.column(), ScriptWhat::BadLine)),
        Some(scalar) => {
            let columns = alone(alloc, word.column())?;
            Ok((SpelledScalar { scalar, columns }, rest))
        }
    }
}

fn joined(op: Pair, a: Box<Scalar>, b: Box<Scalar>) -> Scalar
    ensures { expr_of result ≡ two op (expr_of a.value) (expr_of b.value) }
{
    match op {
        Pair::Add => Scalar::Add(a, b),
        Pair::Sub => Scalar::Sub(a, b),
        Pair::Mul => Scalar::Mul(a, b),
        Pair::Min => Scalar::Min(a, b),
        Pair::Max => Scalar::Max(a, b),
        Pair::Less => Scalar::Less(a, b),
        Pair::Same => Scalar::Same(a, b),
        Pair::And => Scalar::And(a, b),
        Pair::Or => Scalar::Or(a, b),
        Pair::Xor => Scalar::Xor(a, b),
    }
}

pub(crate) fn is_open(word: &Word<'_>) -> bool
    ensures { result ≡ is_open word.now }
{
    word.text() == b"(".as_slice()
}

fn wrapped(alloc: Global, a: SpelledScalar, column: u32) -> Result<SpelledScalar, AllocError>
    ensures value { IfOk result (λ p. spelled_of p ≡ wrapped (spelled_of a) column) }
    ensures nodes { IfOk result (λ p. nodes (expr_of p.scalar) ≡ nodes (expr_of a.scalar) + 1) }
{
    let SpelledScalar {
        scalar,
        mut columns,
    } = a;
    columns.push(column)?;
    let scalar = Scalar::Wrap(Box::new(alloc, scalar)?);
    Ok(SpelledScalar { scalar, columns })
}

fn paired(
    alloc: Global,
    op: Pair,
    a: SpelledScalar,
    b: SpelledScalar,
    column: u32,
) -> Result<SpelledScalar, AllocError>
    ensures value { IfOk result (λ p. spelled_of p ≡ paired op (spelled_of a) (spelled_of b) column) }
    ensures nodes { IfOk result (λ p. nodes (expr_of p.scalar) ≡ nodes (expr_of a.scalar) + nodes (expr_of b.scalar) + 1) }
{
    let SpelledScalar {
        scalar,
        mut columns,
    } = a;
    let mut more = b.columns;
    columns.append(&mut more)?;
    columns.push(column)?;
    let left = Box::new(alloc, scalar)?;
    let right = Box::new(alloc, b.scalar)?;
    let scalar = joined(op, left, right);
    Ok(SpelledScalar { scalar, columns })
}

fn chosen(
    alloc: Global,
    c: SpelledScalar,
    a: SpelledScalar,
    b: SpelledScalar,
    column: u32,
) -> Result<SpelledScalar, AllocError>
    ensures value { IfOk result (λ p. spelled_of p ≡ chosen (spelled_of c) (spelled_of a) (spelled_of b) column) }
    ensures nodes { IfOk result (λ p. nodes (expr_of p.scalar) ≡ nodes (expr_of c.scalar) + nodes (expr_of a.scalar) + nodes (expr_of b.scalar) + 1) }
{
    let SpelledScalar {
        scalar,
        mut columns,
    } = c;
    let mut second = a.columns;
    let mut third = b.columns;
    columns.append(&mut second)?;
    columns.append(&mut third)?;
    columns.push(column)?;
    let test = Box::new(alloc, scalar)?;
    let left = Box::new(alloc, a.scalar)?;
    let right = Box::new(alloc, b.scalar)?;
    let scalar = Scalar::Cond(test, left, right);
    Ok(SpelledScalar { scalar, columns })
}

// The parts of an operator whose word has this column.
#[cycle(scalar)]
#[tactic(auto, unfolding(crate::specs::Functions::parts_at))]
fn parts_at<'a, 'b>(
    alloc: Global,
    room: u32,
    op: Calc,
    column: u32,
    end: u32,
    words: &'b [Word<'a>],
) -> Result<(SpelledScalar, &'b [Word<'a>]), LineFault>
    ensures gives { Gives (λ x. (spelled_of x.0, x.1.now)) result (parts_at (scalar_at room) op column end words.now) }
    ensures few { IfOk result (λ x. nodes (expr_of x.0.scalar) + length x.1.now ≤ length words.now + 1) }
{
    match op {
        Calc::Two(pair) => {
            let (a, rest) = scalar_at(alloc, room, end, words)?;
            let (b, rest) = scalar_at(alloc, room, end, rest)?;
            let scalar = paired(alloc, pair, a, b, column)?;
            Ok((scalar, rest))
        }
        Calc::Cond => {
            let (c, rest) = scalar_at(alloc, room, end, words)?;
            let (a, rest) = scalar_at(alloc, room, end, rest)?;
            let (b, rest) = scalar_at(alloc, room, end, rest)?;
            let scalar = chosen(alloc, c, a, b, column)?;
            Ok((scalar, rest))
        }
        Calc::Wrap => {
            let (a, rest) = scalar_at(alloc, room, end, words)?;
            let scalar = wrapped(alloc, a, column)?;
            Ok((scalar, rest))
        }
    }
}

// What stands after a `(`.
#[cycle(scalar)]
#[tactic(auto, unfolding(crate::specs::Functions::nested_at))]
fn nested_at<'a, 'b>(
    alloc: Global,
    room: u32,
    end: u32,
    words: &'b [Word<'a>],
) -> Result<(SpelledScalar, &'b [Word<'a>]), LineFault>
    ensures gives { Gives (λ x. (spelled_of x.0, x.1.now)) result (nested_at (scalar_at room) end words.now) }
    ensures few { IfOk result (λ x. nodes (expr_of x.0.scalar) + length x.1.now ≤ length words.now) }
{
    let (word, rest) = next(end, words)?;
    let Some(op) = Calc::of_word(word.text()) else {
        return Err(at(word.column(), ScriptWhat::BadLine));
    };
    let (scalar, rest) = parts_at(alloc, room, op, word.column(), end, rest)?;
    let (_, rest) = this_at(b")".as_slice(), end, rest)?;
    Ok((scalar, rest))
}

/// A scalar in which so many `(` may be open at once, and the words after it. It goes at most
/// `room + 1` calls deep.
#[cycle(scalar)]
#[tactic(auto, unfolding(crate::specs::Functions::scalar_at))]
pub(crate) fn scalar_at<'a, 'b>(
    alloc: Global,
    room: u32,
    end: u32,
    words: &'b [Word<'a>],
) -> Result<(SpelledScalar, &'b [Word<'a>]), LineFault>
    ensures gives { Gives (λ x. (spelled_of x.0, x.1.now)) result (scalar_at room end words.now) }
    ensures few { IfOk result (λ x. nodes (expr_of x.0.scalar) + length x.1.now ≤ length words.now) }
{
    let (word, rest) = next(end, words)?;
    if !is_open(word) {
        return atom_at(alloc, word, rest);
    }
    if room == 0 {
        return Err(at(word.column(), ScriptWhat::TooDeep));
    }
    nested_at(alloc, room - 1, end, rest)
}
