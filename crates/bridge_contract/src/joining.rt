//! The values at the roots of bridges.

ghost use Rattle.std.specs.Prelude.{◌≡◌, ℕ, ◌+◌, ◌-◌, ◌<◌, ◌≤◌, ◌^◌, IfOk, length, ◌++◌, ◌∷◌, []};
ghost use Rattle.bridge_contract.specs.Bridged.{AreBridged, AreUps, AreBelows, CanRaise, Raises, Tops};

use crate::contraction::taken;
use crate::summary::Summary;
use op_laws::TreeOp;
use std::alloc::{AllocError, Global};

// The value of a part over those that it takes from the stack, and its weight.
#[inline(always)]
fn raise<K: TreeOp>(op: &K, part: Summary<K::V, K::G>, stack: &mut Vec<(K::V, u32)>) -> (K::V, u32)
    requires { CanRaise (K.fits op.now) (K.fits_hole op.now) part stack.old.items }
    ensures { Raises (K.upward op.now) part stack.old.items stack.new.items result }
{
    match part {
        Summary::Value { v, n } => (v, n),
        Summary::Hole { g, n } => {
            let x = taken(stack);
            let y = taken(stack);
            (op.psi_n(x.0, x.1, g, n, y.0, y.1), x.1 + n + y.1)
        }
    }
}

/// The value at each part's root, from the parts alone. They are the preorder of a full binary
/// tree, whose leaves are those with a value. It goes over them once, from the last to the first,
/// with a stack.
pub fn join_up<K: TreeOp>(
    alloc: Global,
    op: &K,
    parts: &[Summary<K::V, K::G>],
) -> Result<Vec<K::V>, AllocError>
    requires { AreBridged (K.fits op.now) (K.fits_hole op.now) parts.now }
    ensures { IfOk result (λ v. AreUps (K.upward op.now) parts.now v.items) }
{
    let mut stack: Vec<(K::V, u32)> = Vec::new(alloc);
    let mut out: Vec<K::V> = Vec::new(alloc);
    let mut i = parts.len();
    while i > 0 {
        i -= 1;
        let raised = raise(op, parts[i], &mut stack);
        stack.push(raised)?;
        out.push(raised.0)?;
    }
    out.reverse();
    Ok(out)
}

// The values on the stack that a part takes, where it takes any.
#[inline(always)]
fn on_top<K: TreeOp>(
    _op: &K,
    part: &Summary<K::V, K::G>,
    stack: &[(K::V, u32)],
) -> Option<(K::V, K::V)>
    requires { CanRaise (K.fits _op.now) (K.fits_hole _op.now) part.now stack.now }
    ensures { Tops part.now stack.now result }
{
    match part {
        Summary::Value { .. } => None,
        Summary::Hole { .. } => {
            let count = stack.len();
            Some((stack[count - 1].0, stack[count - 2].0))
        }
    }
}

/// The values at the two roots below each part's hole, the left one first, from the parts alone;
/// nothing for a part without a hole. With the parts of a tree's bridges, they are what `expand_up`
/// takes. It goes over the parts as `join_up` does.
pub fn join_below<K: TreeOp>(
    alloc: Global,
    op: &K,
    parts: &[Summary<K::V, K::G>],
) -> Result<Vec<Option<(K::V, K::V)>>, AllocError>
    requires { AreBridged (K.fits op.now) (K.fits_hole op.now) parts.now }
    ensures { IfOk result (λ v. AreBelows (K.upward op.now) parts.now v.items) }
{
    let mut stack: Vec<(K::V, u32)> = Vec::new(alloc);
    let mut out: Vec<Option<(K::V, K::V)>> = Vec::new(alloc);
    let mut i = parts.len();
    while i > 0 {
        i -= 1;
        let below = on_top(op, &parts[i], &stack);
        let raised = raise(op, parts[i], &mut stack);
        stack.push(raised)?;
        out.push(below)?;
    }
    out.reverse();
    Ok(out)
}
