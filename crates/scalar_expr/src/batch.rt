//! Functions over columns of elements.

ghost use Rattle.std.specs.Prelude.{◌≡◌, ℕ, ◌<◌, ◌≤◌, true, length, map, take};
ghost use Rattle.std.specs.List.{AllByRecursion};
ghost use Rattle.op_laws.specs.Admits.{Admits};
ghost use Rattle.scalar_expr.specs.Columns.{room_of, is_narrow};
ghost use Rattle.scalar_expr.specs.Lanes.{numbers_in, row_at, IsNarrowOf, IsColumnOf};
ghost use Rattle.scalar_expr.specs.Values.{values_of};

use crate::column::Column;
use crate::function::Typed;
use crate::narrow::run_narrow;
use crate::wide::run_wide;

impl Typed {
    /// Whether it takes numbers of w64 and stays with them, so that `eval_narrow` may be called.
    #[inline(always)]
    pub fn is_narrow(&self) -> bool
        ensures { result ≡ is_narrow self.now.takes self.now.scalars }
    {
        self.narrow
    }

    /// How many columns `eval_narrow` and `eval_wide` need.
    #[inline(always)]
    pub fn room(&self) -> usize
        ensures value { result ≡ room_of self.now.scalars }
        ensures within { result ≤ 64 }
    {
        self.room
    }

    /// The values on so many elements, in numbers of 64 bits. The elements come by columns, one for
    /// each component; the results are left in the first columns of the stack, one for each
    /// component of what the function gives. It goes over the columns once for each step, and takes
    /// no memory.
    pub fn eval_narrow(&self, columns: &[Column], count: usize, stack: &mut [[i64; 256]])
        requires narrow { is_narrow self.now.takes self.now.scalars ≡ true }
        requires components { length columns.now ≡ length self.now.takes }
        requires columns { AllByRecursion (IsNarrowOf count) columns.now }
        requires few { count ≤ 256 }
        requires room { room_of self.now.scalars ≤ length stack.old }
        ensures values { (j : ℕ) → j < count
            → row_at (take (length self.now.gives) stack.new) j ≡ values_of self.now.scalars (row_at (map numbers_in columns.now) j) }
        ensures fits { (j : ℕ) → j < count → Admits self.now.takes (row_at (map numbers_in columns.now) j)
            → Admits self.now.gives (row_at (take (length self.now.gives) stack.new) j) }
    {
        run_narrow(&self.steps, columns, count, stack);
    }

    /// The same in numbers of 128 bits, for every function. Columns of w64 are read as they are.
    pub fn eval_wide(&self, columns: &[Column], count: usize, stack: &mut [[i128; 256]])
        requires components { length columns.now ≡ length self.now.takes }
        requires columns { AllByRecursion (IsColumnOf count) columns.now }
        requires few { count ≤ 256 }
        requires room { room_of self.now.scalars ≤ length stack.old }
        ensures values { (j : ℕ) → j < count → Admits self.now.takes (row_at (map numbers_in columns.now) j)
            → row_at (take (length self.now.gives) stack.new) j ≡ values_of self.now.scalars (row_at (map numbers_in columns.now) j) }
        ensures fits { (j : ℕ) → j < count → Admits self.now.takes (row_at (map numbers_in columns.now) j)
            → Admits self.now.gives (row_at (take (length self.now.gives) stack.new) j) }
    {
        run_wide(&self.steps, columns, count, stack);
    }
}
