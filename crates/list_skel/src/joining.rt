//! Lists one after another.

ghost use Rattle.std.specs.Prelude.{◌≡◌, ◌≤◌, length, IfOk};
ghost use Rattle.std.specs.List.{All};
ghost use Rattle.op_laws.specs.declared.TheConstants.{MAX_ELEMENTS as MOST};
ghost use Rattle.list_skel.specs.Given.{all_items};

use op_laws::{ElemType, List};
use std::alloc::{AllocError, Global};

/// The elements of lists of one type, one list after another. Memory is got once, and each list is
/// copied column by column.
pub fn join(alloc: Global, ty: ElemType, lists: &[List]) -> Result<List, AllocError>
    requires same { All (λ x. x.ty ≡ ty) lists.now }
    requires few { length (all_items lists.now) ≤ MOST }
    ensures ty { IfOk result (λ x. x.ty ≡ ty) }
    ensures items { IfOk result (λ x. x.items ≡ all_items lists.now) }
{
    let mut all = List::new(alloc, ty);
    all.reserve(total_len(lists))?;
    for list in lists {
        all.append(list)?;
    }
    Ok(all)
}

// How many elements the lists have together.
fn total_len(lists: &[List]) -> u32
    requires { length (all_items lists.now) ≤ MOST }
    ensures { result ≡ length (all_items lists.now) }
{
    let mut n = 0;
    for list in lists {
        n += list.len();
    }
    n
}
