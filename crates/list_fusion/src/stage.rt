//! What a pipe does with each element.

ghost use Rattle.std.specs.Prelude.{◌≡◌, ℕ, ◌≤◌, ℤ, pos, true, length, IfSome};
ghost use Rattle.std.specs.Ordering.{int_eq};
ghost use Rattle.std.specs.Prelude.{List as Seq};
ghost use Rattle.op_laws.specs.declared.width.Width.{Width as Kind};
ghost use Rattle.op_laws.specs.Admits.{Admits};
ghost use Rattle.list_fusion.specs.Columnar.{Holds, GoesByColumns};
ghost use Rattle.list_fusion.specs.Stages.{Takes, applied, taken_by, type_after};
ghost use Rattle.list_fusion.specs.Through.{after_stage};

use crate::columns::{keep_columns, map_columns};
use op_laws::Tup;
use scalar_expr::Typed;

/// What a pipe does with each element.
#[derive(Debug)]
pub enum Stage {
    /// The function's value takes the place of the element.
    Map(Typed),
    /// The element stays where the function isn't 0.
    Keep(Typed),
}

// By hand, so that where a stage is let go there is one call, and not a case for each.
impl Drop for Stage {
    fn drop(self) {
        match self {
            Stage::Map(_) => (),
            Stage::Keep(_) => (),
        }
    }
}

impl Stage {
    // What it makes of an element, if it keeps it.
    #[inline(always)]
    pub(crate) fn apply(&self, e: Tup) -> Option<Tup>
        requires { Admits (taken_by self.now) e }
        ensures value { result ≡ after_stage self.now e }
        ensures admitted { (ty : Seq Kind) → Takes self.now ty → IfSome result (Admits (type_after self.now ty)) }
    {
        match self {
            Stage::Map(f) => Some(f.eval(e)),
            Stage::Keep(f) => if is_zero(f.eval(e).at(0)) {
                None
            } else {
                Some(e)
            },
        }
    }
}

impl Stage {
    // Whether its function goes over columns of 64-bit numbers, and needs at most 8 of them.
    pub(crate) fn goes_by_columns(&self) -> bool
        ensures { result ≡ true → GoesByColumns self.now }
    {
        match self {
            Stage::Map(f) => f.is_narrow() && f.room() <= 8,
            Stage::Keep(f) => f.is_narrow() && f.room() <= 8 && f.gives().len() == 1,
        }
    }

    // What it makes of so many elements in columns, and how many they are then.
    pub(crate) fn apply_columns(
        &self,
        columns: &mut [[i64; 256]; 4],
        count: usize,
        stack: &mut [[i64; 256]; 8],
    ) -> usize
        requires goes { GoesByColumns self.now }
        requires few { count ≤ 256 }
        ensures holds { (ty : Seq Kind) (es : Seq (Seq ℤ)) → Takes self.now ty → Holds columns.old (length ty) count es
            → Holds columns.new (length (type_after self.now ty)) result (applied self.now es) }
        ensures fewer { result ≤ count }
    {
        match self {
            Stage::Map(f) => {
                map_columns(f, columns, count, stack);
                count
            }
            Stage::Keep(f) => keep_columns(f, columns, count, stack),
        }
    }
}

#[inline(always)]
fn is_zero(v: i128) -> bool
    ensures { result ≡ int_eq v (pos 0) }
{
    v == 0
}
