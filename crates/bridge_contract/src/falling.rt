//! The values at the roots of bridges, from the first root down.

ghost use Rattle.std.specs.Prelude.{◌≡◌, ℕ, ◌+◌, ◌≤◌, IfOk, [], ◌∷◌, ◌++◌};
ghost use Rattle.bridge_contract.specs.Downs.{AreFallen, AreDowns};
ghost use Rattle.bridge_contract.specs.Dropped.{CanDrop, Drops};

use crate::contraction::taken;
use crate::down_summary::DownSummary;
use op_laws::DownOp;
use std::alloc::{AllocError, Global};

// Takes the value at a part's root from the stack, and puts those at the roots below it there.
#[inline(always)]
fn drop_part<D: DownOp>(
    op: &D,
    part: DownSummary<D::D>,
    stack: &mut Vec<(D::V, u32)>,
) -> Result<D::V, AllocError>
    requires { CanDrop (D.fits op.now) (D.fits_way op.now) part stack.old.items }
    ensures { IfOk result (Drops (D.downward op.now) part stack.old.items stack.new.items) }
{
    let top = taken(stack);
    match part {
        DownSummary::End => Ok(top.0),
        DownSummary::Both { l, r, n } => {
            let weight = top.1 + n;
            let right = op.psi_d(top.0, top.1, r, n);
            let left = op.psi_d(top.0, top.1, l, n);
            stack.push((right, weight))?;
            stack.push((left, weight))?;
            Ok(top.0)
        }
    }
}

/// The value at each part's root, from the parts alone, with `c` at the first. They are the
/// preorder of a full binary tree, whose leaves are those that end. It goes over them once, with a
/// stack.
pub fn join_down<D: DownOp>(
    alloc: Global,
    op: &D,
    c: D::V,
    parts: &[DownSummary<D::D>],
) -> Result<Vec<D::V>, AllocError>
    requires value { D.fits op.now c 1 }
    requires parts { AreFallen (D.fits_way op.now) parts.now }
    ensures { IfOk result (λ v. AreDowns (D.downward op.now) c parts.now v.items) }
{
    let mut stack: Vec<(D::V, u32)> = Vec::new(alloc);
    let mut out: Vec<D::V> = Vec::new(alloc);
    stack.push((c, 1))?;
    for part in parts {
        let value = drop_part(op, *part, &mut stack)?;
        out.push(value)?;
    }
    Ok(out)
}
