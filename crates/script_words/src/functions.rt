//! Functions as they are written: a scalar, or a tuple of two to four of them.
ghost use Rattle.std.specs.Prelude.{◌≡◌, ◌+◌, ◌<◌, ◌^◌, [], ◌∷◌, length, drop, IfOk};
ghost use Rattle.scalar_expr.specs.Expr.{nodes};
ghost use Rattle.scalar_expr.specs.Views.{expr_of};
ghost use Rattle.script_words.specs.Read.{Gives};
ghost use Rattle.script_words.specs.Functions.{begins_tuple, closes, others_at, scalars_at, function_at, function_with};
ghost use Rattle.script_words.specs.Views.{spelled_of, function_of, function_from, tuple_from};

use crate::fault::LineFault;
use crate::reading::{next, this_at};
use crate::scalars::{MAX_OPEN, is_open, scalar_at};
use crate::spelled::{SpelledFunction, SpelledScalar};
use crate::word::Word;
use scalar_expr::Func;
use std::alloc::{AllocError, Global};

fn begins_tuple(words: &[Word<'_>]) -> bool
    ensures { result ≡ begins_tuple words.now }
{
    match words.split_first() {
        None => false,
        Some((a, rest)) => match rest.split_first() {
            None => false,
            Some((b, _)) => is_open(a) && b.text() == b"tuple".as_slice(),
        },
    }
}

fn closes(words: &[Word<'_>]) -> bool
    ensures { result ≡ closes words.now }
{
    match words.split_first() {
        None => false,
        Some((a, _)) => a.text() == b")".as_slice(),
    }
}

// The words after so many of them.
fn after<'a, 'b>(words: &'b [Word<'a>], n: usize) -> &'b [Word<'a>]
    ensures { result.now ≡ drop n words.now }
{
    if n <= words.len() {
        &words[n..]
    } else {
        &words[words.len()..]
    }
}

fn one(a: SpelledScalar, at: u32) -> SpelledFunction
    requires few { nodes (expr_of a.scalar) < 2 ^ 32 }
    ensures { function_of result ≡ function_with (spelled_of a ∷ []) at }
{
    SpelledFunction {
        func: Func::One(a.scalar),
        columns: a.columns,
        at,
    }
}

fn two(a: SpelledScalar, b: SpelledScalar, at: u32) -> Result<SpelledFunction, AllocError>
    requires few { nodes (expr_of a.scalar) + nodes (expr_of b.scalar) < 2 ^ 32 }
    ensures { IfOk result (λ f. function_of f ≡ function_with (spelled_of a ∷ spelled_of b ∷ []) at) }
{
    let mut columns = a.columns;
    let mut second = b.columns;
    columns.append(&mut second)?;
    let func = Func::Two(a.scalar, b.scalar);
    Ok(SpelledFunction { func, columns, at })
}

fn three(
    a: SpelledScalar,
    b: SpelledScalar,
    c: SpelledScalar,
    at: u32,
) -> Result<SpelledFunction, AllocError>
    requires few { nodes (expr_of a.scalar) + nodes (expr_of b.scalar) + nodes (expr_of c.scalar) < 2 ^ 32 }
    ensures { IfOk result (λ f. function_of f ≡ function_with (spelled_of a ∷ spelled_of b ∷ spelled_of c ∷ []) at) }
{
    let mut columns = a.columns;
    let mut second = b.columns;
    let mut third = c.columns;
    columns.append(&mut second)?;
    columns.append(&mut third)?;
    let func = Func::Three(a.scalar, b.scalar, c.scalar);
    Ok(SpelledFunction { func, columns, at })
}

fn four(
    a: SpelledScalar,
    b: SpelledScalar,
    c: SpelledScalar,
    d: SpelledScalar,
    at: u32,
) -> Result<SpelledFunction, AllocError>
    requires few { nodes (expr_of a.scalar) + nodes (expr_of b.scalar) + nodes (expr_of c.scalar) + nodes (expr_of d.scalar) < 2 ^ 32 }
    ensures { IfOk result (λ f. function_of f ≡ function_with (spelled_of a ∷ spelled_of b ∷ spelled_of c ∷ spelled_of d ∷ []) at) }
{
    let mut columns = a.columns;
    let mut second = b.columns;
    let mut third = c.columns;
    let mut fourth = d.columns;
    columns.append(&mut second)?;
    columns.append(&mut third)?;
    columns.append(&mut fourth)?;
    let func = Func::Four(a.scalar, b.scalar, c.scalar, d.scalar);
    Ok(SpelledFunction { func, columns, at })
}

// What stands after two scalars of a tuple.
#[tactic(auto, unfolding(crate::specs::Functions::others_at))]
fn others_at<'a, 'b>(
    alloc: Global,
    a: SpelledScalar,
    b: SpelledScalar,
    at: u32,
    end: u32,
    words: &'b [Word<'a>],
) -> Result<(SpelledFunction, &'b [Word<'a>]), LineFault>
    requires few { nodes (expr_of a.scalar) + nodes (expr_of b.scalar) + length words.now < 2 ^ 32 }
    ensures { Gives (λ x. (function_of x.0, x.1.now)) result (tuple_from (spelled_of a) (spelled_of b) at (others_at 2 end words.now)) }
{
    if closes(words) {
        let function = two(a, b, at)?;
        return Ok((function, after(words, 1)));
    }
    let (c, rest) = scalar_at(alloc, MAX_OPEN, end, words)?;
    if closes(rest) {
        let function = three(a, b, c, at)?;
        return Ok((function, after(rest, 1)));
    }
    let (d, rest) = scalar_at(alloc, MAX_OPEN, end, rest)?;
    let (_, rest) = this_at(b")".as_slice(), end, rest)?;
    let function = four(a, b, c, d, at)?;
    Ok((function, rest))
}

#[tactic(auto, unfolding(crate::specs::Functions::scalars_at))]
fn scalars_at<'a, 'b>(
    alloc: Global,
    at: u32,
    end: u32,
    words: &'b [Word<'a>],
) -> Result<(SpelledFunction, &'b [Word<'a>]), LineFault>
    requires few { length words.now < 2 ^ 32 }
    ensures { Gives (λ x. (function_of x.0, x.1.now)) result (function_from at (scalars_at end words.now)) }
{
    if begins_tuple(words) {
        let (a, rest) = scalar_at(alloc, MAX_OPEN, end, after(words, 2))?;
        let (b, rest) = scalar_at(alloc, MAX_OPEN, end, rest)?;
        return others_at(alloc, a, b, at, end, rest);
    }
    let (a, rest) = scalar_at(alloc, MAX_OPEN, end, words)?;
    Ok((one(a, at), rest))
}

/// A function, and the words after it. Its scalars are at most 30 deep.
#[tactic(auto, unfolding(crate::specs::Functions::function_at))]
pub fn function_at<'a, 'b>(
    alloc: Global,
    end: u32,
    words: &'b [Word<'a>],
) -> Result<(SpelledFunction, &'b [Word<'a>]), LineFault>
    requires few { length words.now < 2 ^ 32 }
    ensures { Gives (λ x. (function_of x.0, x.1.now)) result (function_at end words.now) }
{
    let (first, _) = next(end, words)?;
    scalars_at(alloc, first.column(), end, words)
}
