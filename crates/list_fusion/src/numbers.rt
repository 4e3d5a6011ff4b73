//! Folds and scans of numbers that lie side by side.

ghost use Rattle.std.specs.Prelude.{◌≡◌, ◌+◌, ◌≤◌, [], ◌∷◌, ◌++◌, length, None, IfOk, IfSome, OnOk};
ghost use Rattle.std.specs.List.{fold};
ghost use Rattle.op_laws.specs.declared.TheConstants.{MAX_ELEMENTS as MOST};
ghost use Rattle.op_laws.specs.declared.width.Width.TheVariants.{W64};
ghost use Rattle.op_laws.specs.Elements.{singles};
ghost use Rattle.op_laws.specs.Folds.{step};
ghost use Rattle.list_fusion.specs.Held.{held_after_all, next_held, held_through, scanned};

use crate::combining::joined_beside;
use op_laws::{List, Semi, Tup};
use std::alloc::AllocError;

// What is held, of weight `n`, and after it the values of numbers that are elements of their own.
#[inline(always)]
pub fn fold_numbers<M: Semi>(op: &M, held: Option<M::C>, n: u32, numbers: &[i64]) -> Option<M::C>
    requires takes { M.takes op.now (W64 ∷ []) }
    requires held { IfSome held (λ c. M.fits op.now c n) }
    requires few { n + length numbers.now ≤ MOST }
    ensures value { result ≡ held_after_all (M.lifted op.now) (M.combined op.now) held (singles numbers.now) }
    ensures fits { IfSome result (λ c. M.fits op.now c (n + length numbers.now)) }
{
    match held {
        Some(c) => Some(fold_on(op, c, n, numbers)),
        None => fold_first(op, n, numbers),
    }
}

// The same where nothing is held.
#[inline(always)]
fn fold_first<M: Semi>(op: &M, _n: u32, numbers: &[i64]) -> Option<M::C>
    requires takes { M.takes op.now (W64 ∷ []) }
    requires few { _n + length numbers.now ≤ MOST }
    ensures value { result ≡ held_after_all (M.lifted op.now) (M.combined op.now) None (singles numbers.now) }
    ensures fits { IfSome result (λ c. M.fits op.now c (_n + length numbers.now)) }
{
    match numbers.split_first() {
        None => None,
        Some((first, rest)) => Some(fold_on(op, op.lift(Tup::one(i128::from(*first))), 1, rest)),
    }
}

// A value of weight `n`, and after it the values of the numbers.
#[inline(always)]
fn fold_on<M: Semi>(op: &M, c: M::C, n: u32, numbers: &[i64]) -> M::C
    requires takes { M.takes op.now (W64 ∷ []) }
    requires held { M.fits op.now c n }
    requires few { n + length numbers.now ≤ MOST }
    ensures value { result ≡ fold (step (M.lifted op.now) (M.combined op.now)) c (singles numbers.now) }
    ensures fits { M.fits op.now result (n + length numbers.now) }
{
    let mut total = c;
    for i in 0..numbers.len() as u32 {
        let number = Tup::one(i128::from(numbers[i as usize]));
        total = op.combine(total, n + i, op.lift(number), 1);
    }
    total
}

// Adds for each number the finished value of it and what was held before, which is held from then
// on. The answer is what is held in the end.
#[inline(always)]
pub fn scan_numbers<M: Semi>(
    list: &mut List,
    op: &M,
    held: Option<M::C>,
    n: u32,
    numbers: &[i64],
    back: bool,
) -> Result<Option<M::C>, AllocError>
    requires takes { M.takes op.now (W64 ∷ []) }
    requires held { IfSome held (λ c. M.fits op.now c n) }
    requires few { n + length numbers.now ≤ MOST }
    requires room { length list.old.items + length numbers.now ≤ MOST }
    requires ty { list.old.ty ≡ M.gives op.now (W64 ∷ []) }
    ensures items { OnOk result (list.new.items ≡ list.old.items ++ scanned (M.lifted op.now) (M.combined op.now) (M.finished op.now) back held (singles numbers.now)) }
    ensures value { IfOk result (λ h. h ≡ held_through (M.lifted op.now) (M.combined op.now) back held (singles numbers.now)) }
    ensures fits { IfOk result (λ h. IfSome h (λ c. M.fits op.now c (n + length numbers.now))) }
    ensures ty { list.new.ty ≡ list.old.ty }
{
    list.reserve(numbers.len() as u32)?;
    let mut held = held;
    for i in 0..numbers.len() as u32 {
        let e = op.lift(Tup::one(i128::from(numbers[i as usize])));
        let c = joined_beside(op, back, held, n + i, e);
        list.push(op.finish(c, n + i + 1))?;
        held = Some(c);
    }
    Ok(held)
}
