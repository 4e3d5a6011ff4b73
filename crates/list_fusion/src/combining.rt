//! A value that is held, and one place more.

ghost use Rattle.std.specs.Prelude.{◌≡◌, ◌+◌, ◌<◌, ◌≤◌, IfSome};
ghost use Rattle.op_laws.specs.declared.TheConstants.{MAX_ELEMENTS as MOST};
ghost use Rattle.op_laws.specs.Folds.{with_next, with_front};
ghost use Rattle.op_laws.specs.Laws.{IsElementOf};
ghost use Rattle.list_fusion.specs.Held.{held_after, held_in_front, next_held};

use op_laws::{Semi, Tup};

// The value of what is held, of weight `n`, and one element after it.
#[inline(always)]
pub fn joined_after<M: Semi>(op: &M, held: Option<M::C>, n: u32, e: M::C) -> M::C
    requires few { n + 1 ≤ MOST }
    requires held { IfSome held (λ c. M.fits op.now c n) }
    requires one { M.fits op.now e 1 }
    ensures value { result ≡ with_next (M.combined op.now) held e }
    ensures fits { M.fits op.now result (n + 1) }
{
    match held {
        None => e,
        Some(c) => op.combine(c, n, e, 1),
    }
}

// The value of one element and what is held, of weight `n`, after it.
#[inline(always)]
pub fn joined_in_front<M: Semi>(op: &M, e: M::C, held: Option<M::C>, n: u32) -> M::C
    requires few { n + 1 ≤ MOST }
    requires held { IfSome held (λ c. M.fits op.now c n) }
    requires one { M.fits op.now e 1 }
    ensures value { result ≡ with_front (M.combined op.now) e held }
    ensures fits { M.fits op.now result (n + 1) }
{
    match held {
        None => e,
        Some(c) => op.combine(e, 1, c, n),
    }
}

// One of the two: `back` says that the element stands in front.
#[inline(always)]
pub fn joined_beside<M: Semi>(op: &M, back: bool, held: Option<M::C>, n: u32, e: M::C) -> M::C
    requires few { n + 1 ≤ MOST }
    requires held { IfSome held (λ c. M.fits op.now c n) }
    requires one { M.fits op.now e 1 }
    ensures value { result ≡ next_held (M.combined op.now) back held e }
    ensures fits { M.fits op.now result (n + 1) }
{
    if back {
        joined_in_front(op, e, held, n)
    } else {
        joined_after(op, held, n, e)
    }
}

// What is held fits one place more.
#[inline(always)]
pub fn grown<M: Semi>(_op: &M, held: Option<M::C>, n: u32) -> Option<M::C>
    requires { IfSome held (λ c. M.fits _op.now c n) }
    ensures value { result ≡ held }
    ensures fits { IfSome result (λ c. M.fits _op.now c (n + 1)) }
{
    held
}

// What is held after one place more, which may have kept no element.
#[inline(always)]
pub fn advanced<M: Semi>(op: &M, held: Option<M::C>, n: u32, e: Option<Tup>) -> Option<M::C>
    requires few { n + 1 ≤ MOST }
    requires held { IfSome held (λ c. M.fits op.now c n) }
    requires element { IfSome e (IsElementOf (M.takes op.now)) }
    ensures value { result ≡ held_after (M.lifted op.now) (M.combined op.now) held e }
    ensures fits { IfSome result (λ c. M.fits op.now c (n + 1)) }
{
    match e {
        None => grown(op, held, n),
        Some(e) => Some(joined_after(op, held, n, op.lift(e))),
    }
}

// What is held with one place more in front, which may have kept no element.
#[inline(always)]
pub fn preceded<M: Semi>(op: &M, e: Option<Tup>, held: Option<M::C>, n: u32) -> Option<M::C>
    requires few { n + 1 ≤ MOST }
    requires held { IfSome held (λ c. M.fits op.now c n) }
    requires element { IfSome e (IsElementOf (M.takes op.now)) }
    ensures value { result ≡ held_in_front (M.lifted op.now) (M.combined op.now) e held }
    ensures fits { IfSome result (λ c. M.fits op.now c (n + 1)) }
{
    match e {
        None => grown(op, held, n),
        Some(e) => Some(joined_in_front(op, op.lift(e), held, n)),
    }
}
