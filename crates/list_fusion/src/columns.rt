//! Columns of up to 256 numbers: how they are filled, and what functions make of them.

ghost use Rattle.std.specs.Prelude.{◌≡◌, ℕ, ◌+◌, ◌-◌, ◌<◌, ◌≤◌, ℤ, pos, true, not, [], ◌∷◌, length, map, take, slice_index_or, if◌then◌else◌};
ghost use Rattle.std.specs.Prelude.{List as Seq};
ghost use Rattle.std.specs.List.{filter, All};
ghost use Rattle.std.specs.Ordering.{int_eq};
ghost use Rattle.op_laws.specs.declared.width.Width.TheVariants.{W64};
ghost use Rattle.op_laws.specs.Admits.{Admits};
ghost use Rattle.op_laws.specs.Elements.{singles};
ghost use Rattle.scalar_expr.specs.Columns.{room_of, is_narrow};
ghost use Rattle.scalar_expr.specs.Lanes.{row_at};
ghost use Rattle.scalar_expr.specs.Values.{values_of};
ghost use Rattle.list_fusion.specs.Stages.{is_kept};
ghost use Rattle.list_fusion.specs.Columnar.{Holds, flagged};

use scalar_expr::{Column, Typed};

// A block of fewer places goes element by element: columns take some 24 KiB, which are zeroed.
pub const FEW: u32 = 64;

// Begins a column with these numbers.
pub fn copy(column: &mut [i64; 256], numbers: &[i64])
    requires { length numbers.now ≤ 256 }
    ensures { (j : ℕ) → j < length numbers.now → slice_index_or column.new j (pos 0) ≡ slice_index_or numbers.now j (pos 0) }
{
    for i in 0..numbers.len() {
        column[i] = numbers[i];
    }
}

// Begins a column with these numbers, the last one first.
pub fn copy_back(column: &mut [i64; 256], numbers: &[i64])
    requires { length numbers.now ≤ 256 }
    ensures { (j : ℕ) → j < length numbers.now → slice_index_or column.new j (pos 0) ≡ slice_index_or numbers.now (length numbers.now - 1 - j) (pos 0) }
{
    let last = numbers.len();
    for i in 0..numbers.len() {
        column[i] = numbers[last - 1 - i];
    }
}

// Begins a column with so many numbers from `first` on.
pub fn count_up(column: &mut [i64; 256], first: u32, count: usize)
    requires few { count ≤ 256 }
    ensures { (j : ℕ) → j < count → slice_index_or column.new j (pos 0) ≡ pos (first + j) }
{
    for i in 0..count {
        column[i] = i64::from(first) + i as i64;
    }
}

// Begins a column with so many numbers below `end`, from the greatest down.
pub fn count_down(column: &mut [i64; 256], end: u32, count: usize)
    requires few { count ≤ 256 }
    requires within { count ≤ end }
    ensures { (j : ℕ) → j < count → slice_index_or column.new j (pos 0) ≡ pos (end - 1 - j) }
{
    for i in 0..count {
        column[i] = i64::from(end - 1 - i as u32);
    }
}

// Maps so many elements by a function. Their components stand in the first columns, before and
// after.
pub fn map_columns(
    f: &Typed,
    columns: &mut [[i64; 256]; 4],
    count: usize,
    stack: &mut [[i64; 256]; 8],
)
    requires narrow { is_narrow f.now.takes f.now.scalars ≡ true }
    requires room { room_of f.now.scalars ≤ 8 }
    requires few { count ≤ 256 }
    ensures { (es : Seq (Seq ℤ)) → Holds columns.old (length f.now.takes) count es → Holds columns.new (length f.now.gives) count (map (values_of f.now.scalars) es) }
{
    evaluate(f, columns, count, stack);
    take_first(columns, stack, f.gives().len());
}

// Keeps those of so many elements where a function isn't 0, and tells how many there are.
pub fn keep_columns(
    f: &Typed,
    columns: &mut [[i64; 256]; 4],
    count: usize,
    stack: &mut [[i64; 256]; 8],
) -> usize
    requires narrow { is_narrow f.now.takes f.now.scalars ≡ true }
    requires room { room_of f.now.scalars ≤ 8 }
    requires single { length f.now.gives ≡ 1 }
    requires few { count ≤ 256 }
    ensures rows { (es : Seq (Seq ℤ)) → Holds columns.old (length f.now.takes) count es → Holds columns.new (length f.now.takes) result (filter (is_kept f.now.scalars) es) }
    ensures fewer { result ≤ count }
{
    evaluate(f, columns, count, stack);
    compact_all(columns, f.takes().len(), &stack[0], count)
}

// The function's values on so many elements, in the first columns of the stack.
fn evaluate(f: &Typed, columns: &[[i64; 256]; 4], count: usize, stack: &mut [[i64; 256]; 8])
    requires narrow { is_narrow f.now.takes f.now.scalars ≡ true }
    requires room { room_of f.now.scalars ≤ 8 }
    requires few { count ≤ 256 }
    ensures { (j : ℕ) → j < count → row_at (take (length f.now.gives) stack.new) j ≡ values_of f.now.scalars (row_at (take (length f.now.takes) columns.now) j) }
{
    let a = Column::Narrow(&columns[0][..count]);
    let b = Column::Narrow(&columns[1][..count]);
    let c = Column::Narrow(&columns[2][..count]);
    let d = Column::Narrow(&columns[3][..count]);
    match f.takes().len() {
        1 => f.eval_narrow(&[a], count, stack),
        2 => f.eval_narrow(&[a, b], count, stack),
        3 => f.eval_narrow(&[a, b, c], count, stack),
        _ => f.eval_narrow(&[a, b, c, d], count, stack),
    }
}

// Takes over the first columns of the stack.
fn take_first(columns: &mut [[i64; 256]; 4], stack: &[[i64; 256]; 8], n: usize)
    requires { n ≤ 4 }
    ensures { take n columns.new ≡ take n stack.now }
{
    for k in 0..n {
        columns[k] = stack[k];
    }
}

// Closes up the first columns, of so many numbers each, over the places where the flag is 0.
fn compact_all(
    columns: &mut [[i64; 256]; 4],
    width: usize,
    flags: &[i64; 256],
    count: usize,
) -> usize
    requires some { 1 ≤ width }
    requires width { width ≤ 4 }
    requires few { count ≤ 256 }
    ensures count { result ≡ length (flagged flags.now count) }
    ensures fewer { result ≤ count }
    ensures kept { (k : ℕ) → k < width → (t : ℕ) → t < length (flagged flags.now count)
        → slice_index_or (slice_index_or columns.new k []) t (pos 0) ≡ slice_index_or (slice_index_or columns.old k []) (slice_index_or (flagged flags.now count) t 0) (pos 0) }
{
    let kept = compact(&mut columns[0], flags, count);
    for k in 1..width {
        let _kept = compact(&mut columns[k], flags, count);
    }
    kept
}

// The same for one column. Each number is written, and the next one over it where the flag is 0, so
// no branch depends on flags.
fn compact(column: &mut [i64; 256], flags: &[i64; 256], count: usize) -> usize
    requires few { count ≤ 256 }
    ensures count { result ≡ length (flagged flags.now count) }
    ensures fewer { result ≤ count }
    ensures kept { (t : ℕ) → t < length (flagged flags.now count) → slice_index_or column.new t (pos 0) ≡ slice_index_or column.old (slice_index_or (flagged flags.now count) t 0) (pos 0) }
{
    let mut kept = 0;
    for i in 0..count {
        column[kept] = column[i];
        kept += is_set(flags[i]);
    }
    kept
}

// 1 for a flag that isn't 0.
#[inline(always)]
fn is_set(flag: i64) -> usize
    ensures { result ≡ (if not (int_eq flag (pos 0)) then 1 else 0) }
{
    usize::from(flag != 0)
}

// The numbers that are so many elements of one number each.
#[inline(always)]
pub fn first_column(columns: &[[i64; 256]; 4], count: usize) -> &[i64]
    requires { count ≤ 256 }
    ensures value { (es : Seq (Seq ℤ)) → Holds columns.now 1 count es → singles result.now ≡ es }
    ensures long { length result.now ≡ count }
{
    front_of(&columns[0], count)
}

#[inline(always)]
fn front_of(column: &[i64; 256], count: usize) -> &[i64]
    requires { count ≤ 256 }
    ensures value { result.now ≡ take count column.now }
    ensures long { length result.now ≡ count }
{
    &column[..count]
}

// Each number of 64 bits is an element of w64. Compiled code has no such loop.
#[inline(always)]
pub fn admitted(numbers: &[i64])
    ensures { All (Admits (W64 ∷ [])) (singles numbers.now) }
{
    for number in numbers {
        let _read = *number;
    }
}
