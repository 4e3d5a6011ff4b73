//! Lists that are filled.

ghost use Rattle.std.specs.Prelude.{◌≡◌, [], IfOk};

use op_laws::{ElemType, List};
use std::alloc::{AllocError, Global};

/// A list of no elements, with memory for so many.
pub fn list_for(alloc: Global, ty: ElemType, n: u32) -> Result<List, AllocError>
    ensures ty { IfOk result (λ x. x.ty ≡ ty) }
    ensures items { IfOk result (λ x. x.items ≡ []) }
{
    let mut list = List::new(alloc, ty);
    list.reserve(n)?;
    Ok(list)
}
