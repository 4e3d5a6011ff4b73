//! The first fault of scalars that are too deep.

ghost use Rattle.std.specs.Prelude.{◌≡◌, ◌+◌, ◌-◌, ◌<◌, ◌≤◌, ◌^◌, ◌++◌, IfOk, IfErr};
ghost use Rattle.scalar_expr.specs.Expr.{nodes, depth_of, postorder, two, cond, wrap};
ghost use Rattle.scalar_expr.specs.Typing.{first_fault};
ghost use Rattle.scalar_expr.specs.Views.{expr_of};
ghost use Rattle.scalar_expr.specs.Walk.{op_of, Leads, IsWithin};

use crate::MAX_DEPTH;
use crate::depth::is_deeper;
use crate::fault::TypeFault;
use crate::scalar::Scalar;
use crate::widths::measured;
use op_laws::ElemType;

/// Where the search for the first fault goes on.
#[derive(Clone, Copy, Debug)]
pub(crate) enum Next<'a> {
    /// In this part, which is too deep. Its first node has this place.
    Into(&'a Scalar, u32),
    /// Nowhere: this is the fault.
    Found(TypeFault),
}

/// The first fault in postorder of a scalar that is too deep and whose first node has this place.
/// It goes down from part to part in a loop, so that no depth is too much for it.
#[tactic(auto, unfolding(crate::specs::Walk::Leads), using(crate::proofs::Nodes::has_nodes))]
pub(crate) fn deep_fault(ty: ElemType, place: u32, s: &Scalar) -> TypeFault
    requires deep { MAX_DEPTH < depth_of (expr_of s.now) }
    requires few { place + nodes (expr_of s.now) < 2 ^ 32 }
    ensures { first_fault ty place (postorder (expr_of s.now)) ≡ Some result }
{
    let mut at = place;
    let mut node = s;
    loop {
        match next_of(ty, at, node) {
            Next::Found(fault) => return fault,
            Next::Into(part, start) => {
                node = part;
                at = start;
            }
        }
    }
}

// Where the first fault of a scalar that is too deep is.
fn next_of(ty: ElemType, place: u32, s: &Scalar) -> Next<'_>
    requires deep { MAX_DEPTH < depth_of (expr_of s.now) }
    requires few { place + nodes (expr_of s.now) < 2 ^ 32 }
    ensures leads { Leads ty (first_fault ty place (postorder (expr_of s.now))) result }
    ensures smaller { IsWithin (nodes (expr_of s.now) - 1) result }
{
    match s {
        Scalar::Lit(_) | Scalar::Part(_) => unreachable!(),
        Scalar::Add(a, b)
        | Scalar::Sub(a, b)
        | Scalar::Mul(a, b)
        | Scalar::Min(a, b)
        | Scalar::Max(a, b)
        | Scalar::Less(a, b)
        | Scalar::Same(a, b)
        | Scalar::And(a, b)
        | Scalar::Or(a, b)
        | Scalar::Xor(a, b) => next_in_two(ty, place, s, a, b),
        Scalar::Cond(c, a, b) => next_in_three(ty, place, s, c, a, b),
        Scalar::Wrap(a) => next_in_one(ty, place, s, a),
    }
}

// The same of a scalar with these three parts.
#[tactic(auto, unfolding(crate::specs::Walk::Leads))]
fn next_in_three<'a>(
    ty: ElemType,
    place: u32,
    s: &Scalar,
    c: &'a Scalar,
    a: &'a Scalar,
    b: &'a Scalar,
) -> Next<'a>
    requires deep { MAX_DEPTH < depth_of (expr_of s.now) }
    requires few { place + nodes (expr_of s.now) < 2 ^ 32 }
    requires whole { expr_of s.now ≡ cond (expr_of c.now) (expr_of a.now) (expr_of b.now) }
    ensures leads { Leads ty (first_fault ty place (postorder (expr_of s.now))) result }
    ensures smaller { IsWithin (nodes (expr_of s.now) - 1) result }
{
    match after_three(ty, place, c, a, b) {
        Ok(after) => Next::Found(TypeFault::TooDeep(after)),
        Err(next) => next,
    }
}

// The same of a scalar with these two parts.
#[tactic(auto, unfolding(crate::specs::Walk::Leads))]
fn next_in_two<'a>(ty: ElemType, place: u32, s: &Scalar, a: &'a Scalar, b: &'a Scalar) -> Next<'a>
    requires deep { MAX_DEPTH < depth_of (expr_of s.now) }
    requires few { place + nodes (expr_of s.now) < 2 ^ 32 }
    requires whole { expr_of s.now ≡ two (op_of (expr_of s.now)) (expr_of a.now) (expr_of b.now) }
    ensures leads { Leads ty (first_fault ty place (postorder (expr_of s.now))) result }
    ensures smaller { IsWithin (nodes (expr_of s.now) - 1) result }
{
    match after_two(ty, place, a, b) {
        Ok(after) => Next::Found(TypeFault::TooDeep(after)),
        Err(next) => next,
    }
}

// The same of a scalar with this part.
#[tactic(auto, unfolding(crate::specs::Walk::Leads))]
fn next_in_one<'a>(ty: ElemType, place: u32, s: &Scalar, a: &'a Scalar) -> Next<'a>
    requires deep { MAX_DEPTH < depth_of (expr_of s.now) }
    requires few { place + nodes (expr_of s.now) < 2 ^ 32 }
    requires whole { expr_of s.now ≡ wrap (expr_of a.now) }
    ensures leads { Leads ty (first_fault ty place (postorder (expr_of s.now))) result }
    ensures smaller { IsWithin (nodes (expr_of s.now) - 1) result }
{
    match after_part(ty, place, a) {
        Ok(after) => Next::Found(TypeFault::TooDeep(after)),
        Err(next) => next,
    }
}

// The place after three parts that have no fault, or where the search goes on.
fn after_three<'a>(
    ty: ElemType,
    place: u32,
    c: &'a Scalar,
    a: &'a Scalar,
    b: &'a Scalar,
) -> Result<u32, Next<'a>>
    requires few { place + nodes (expr_of c.now) + nodes (expr_of a.now) + nodes (expr_of b.now) < 2 ^ 32 }
    ensures passed { IfOk result (λ after. (ys : _) → first_fault ty place (postorder (expr_of c.now) ++ (postorder (expr_of a.now) ++ (postorder (expr_of b.now) ++ ys))) ≡ first_fault ty after ys) }
    ensures after { IfOk result (λ after. after ≡ place + nodes (expr_of c.now) + nodes (expr_of a.now) + nodes (expr_of b.now)) }
    ensures leads { IfErr result (λ next. (ys : _) → Leads ty (first_fault ty place (postorder (expr_of c.now) ++ (postorder (expr_of a.now) ++ (postorder (expr_of b.now) ++ ys)))) next) }
    ensures smaller { IfErr result (IsWithin (nodes (expr_of c.now) + nodes (expr_of a.now) + nodes (expr_of b.now))) }
{
    match after_part(ty, place, c) {
        Ok(first) => after_two(ty, first, a, b),
        Err(next) => Err(next),
    }
}

// The same of two parts.
fn after_two<'a>(ty: ElemType, place: u32, a: &'a Scalar, b: &'a Scalar) -> Result<u32, Next<'a>>
    requires few { place + nodes (expr_of a.now) + nodes (expr_of b.now) < 2 ^ 32 }
    ensures passed { IfOk result (λ after. (ys : _) → first_fault ty place (postorder (expr_of a.now) ++ (postorder (expr_of b.now) ++ ys)) ≡ first_fault ty after ys) }
    ensures after { IfOk result (λ after. after ≡ place + nodes (expr_of a.now) + nodes (expr_of b.now)) }
    ensures leads { IfErr result (λ next. (ys : _) → Leads ty (first_fault ty place (postorder (expr_of a.now) ++ (postorder (expr_of b.now) ++ ys))) next) }
    ensures smaller { IfErr result (IsWithin (nodes (expr_of a.now) + nodes (expr_of b.now))) }
{
    match after_part(ty, place, a) {
        Ok(first) => after_part(ty, first, b),
        Err(next) => Err(next),
    }
}

// The same of one part.
fn after_part(ty: ElemType, place: u32, s: &Scalar) -> Result<u32, Next<'_>>
    requires few { place + nodes (expr_of s.now) < 2 ^ 32 }
    ensures passed { IfOk result (λ after. (ys : _) → first_fault ty place (postorder (expr_of s.now) ++ ys) ≡ first_fault ty after ys) }
    ensures after { IfOk result (λ after. after ≡ place + nodes (expr_of s.now)) }
    ensures leads { IfErr result (λ next. (ys : _) → Leads ty (first_fault ty place (postorder (expr_of s.now) ++ ys)) next) }
    ensures smaller { IfErr result (IsWithin (nodes (expr_of s.now))) }
{
    if is_deeper(s, MAX_DEPTH) {
        return Err(Next::Into(s, place));
    }
    match measured(ty, place, s) {
        Ok(measure) => Ok(measure.after),
        Err(fault) => Err(Next::Found(fault)),
    }
}
