//! Where the elements of a pipe come from.

ghost use Rattle.std.specs.Prelude.{◌≡◌, ℕ, ◌+◌, ◌-◌, ◌<◌, ◌≤◌, pos, true, [], ◌∷◌, ◌++◌, length, take, slice_index_or, slice_range, IfSome, OnSome};
ghost use Rattle.std.specs.List.{All, list_all};
ghost use Rattle.op_laws.specs.declared.width.Width.TheVariants.{W64};
ghost use Rattle.op_laws.specs.Admits.{Admits};
ghost use Rattle.op_laws.specs.Elements.{singles};
ghost use Rattle.scalar_expr.specs.Columns.{is_w64};
ghost use Rattle.list_fusion.specs.Columnar.{Holds, place_of};
ghost use Rattle.list_fusion.specs.Pipes.{turned};
ghost use Rattle.list_fusion.specs.Heads.{head_of, CanBeHead};

use crate::columns::{copy, copy_back, count_down, count_up};
use op_laws::{ElemType, List, Tup, Width};

/// Where the elements of a pipe come from.
#[derive(Debug)]
pub enum Head<'a> {
    /// The elements of a list.
    One(&'a List),
    /// The elements of two lists at the same place, with the components of both.
    Two(&'a List, &'a List),
    /// So many numbers of w64, from 0 on.
    Iota(u32),
}

// By hand, so that where a head is let go there is one call, and not a case for each.
impl<'a> Drop for Head<'a> {
    fn drop(self) {
        match self {
            Head::One(_) => (),
            Head::Two(_, _) => (),
            Head::Iota(_) => (),
        }
    }
}

impl<'a> Head<'a> {
    // How many elements it has.
    pub(crate) fn len(&self) -> u32
        requires { CanBeHead self.now }
        ensures { result ≡ length (head_of self.now).items }
    {
        match self {
            Head::One(x) => x.len(),
            Head::Two(x, _) => x.len(),
            Head::Iota(n) => *n,
        }
    }

    // The type of its elements.
    pub(crate) fn ty(&self) -> ElemType
        requires { CanBeHead self.now }
        ensures { result ≡ (head_of self.now).ty }
    {
        match self {
            Head::One(x) => x.ty(),
            Head::Two(x, y) => joined_type(x.ty(), y.ty()),
            Head::Iota(_) => ElemType::one(Width::W64),
        }
    }

    // Its element at place `i`, from 0 on.
    #[inline(always)]
    pub(crate) fn at(&self, i: u32) -> Tup
        requires can { CanBeHead self.now }
        requires within { i < length (head_of self.now).items }
        ensures value { result ≡ slice_index_or (head_of self.now).items i [] }
        ensures admitted { Admits (head_of self.now).ty result }
    {
        match self {
            Head::One(x) => x.at(i),
            Head::Two(x, y) => x.at(i).join(y.at(i)),
            Head::Iota(_) => Tup::one(i128::from(i)),
        }
    }

    // Each element has as many numbers as the type has widths.
    pub(crate) fn lengths(&self)
        requires { CanBeHead self.now }
        ensures { (i : ℕ) → i < length (head_of self.now).items → length (slice_index_or (head_of self.now).items i []) ≡ length (head_of self.now).ty }
    {
        match self {
            Head::One(x) => x.admitted(),
            Head::Two(x, y) => {
                x.admitted();
                y.admitted();
            }
            Head::Iota(_) => (),
        }
    }

    // Puts the elements from place `from` up to before `to` into columns, the last one first where
    // `reversed`.
    pub(crate) fn load(&self, from: u32, to: u32, reversed: bool, columns: &mut [[i64; 256]; 4])
        requires can { CanBeHead self.now }
        requires narrow { list_all is_w64 (head_of self.now).ty ≡ true }
        requires ordered { from ≤ to }
        requires within { to ≤ length (head_of self.now).items }
        requires few { to - from ≤ 256 }
        ensures { Holds columns.new (length (head_of self.now).ty) (to - from) (turned reversed (slice_range (head_of self.now).items from to)) }
    {
        self.lengths();
        for k in 0..self.ty().len() {
            self.load_component(k, from, to, reversed, &mut columns[k]);
        }
    }

    // Puts component `k` of these elements into a column.
    fn load_component(&self, k: usize, from: u32, to: u32, reversed: bool, column: &mut [i64; 256])
        requires can { CanBeHead self.now }
        requires narrow { list_all is_w64 (head_of self.now).ty ≡ true }
        requires component { k < length (head_of self.now).ty }
        requires ordered { from ≤ to }
        requires within { to ≤ length (head_of self.now).items }
        requires few { to - from ≤ 256 }
        ensures { (j : ℕ) → j < to - from → slice_index_or column.new j (pos 0) ≡ slice_index_or (slice_index_or (head_of self.now).items (place_of reversed from to j) []) k (pos 0) }
    {
        match self {
            Head::One(x) => load_numbers(x.numbers_64(k), from, to, reversed, column),
            Head::Two(x, y) => {
                let width = x.ty().len();
                x.admitted();
                if k < width {
                    load_numbers(x.numbers_64(k), from, to, reversed, column);
                } else {
                    load_numbers(y.numbers_64(k - width), from, to, reversed, column);
                }
            }
            Head::Iota(_) => load_count(from, to, reversed, column),
        }
    }

    // Its list, where there is one alone.
    #[inline(always)]
    pub(crate) fn list(&self) -> Option<&'a List>
        ensures { IfSome result (λ x. head_of self.now ≡ x.now) }
    {
        match self {
            Head::One(x) => Some(x),
            _ => None,
        }
    }
}

// The widths of both types.
fn joined_type(a: ElemType, b: ElemType) -> ElemType
    requires { length a + length b ≤ 4 }
    ensures { result ≡ a ++ b }
{
    let mut ty = a;
    for i in 0..b.len() {
        ty = ty.push(b.at(i));
    }
    ty
}

// The elements as numbers that lie side by side, where they are one number of w64 each.
#[inline(always)]
pub(crate) fn numbers_of(x: &List) -> Option<&[i64]>
    ensures ty { OnSome result (x.now.ty ≡ W64 ∷ []) }
    ensures items { IfSome result (λ xs. x.now.items ≡ singles xs.now) }
    ensures admitted { IfSome result (λ xs. All (Admits (W64 ∷ [])) (singles xs.now)) }
{
    x.admitted();
    if is_single(x.ty()) {
        Some(x.numbers_64(0))
    } else {
        None
    }
}

// Whether elements are one number of w64 each.
#[inline(always)]
pub(crate) fn is_single(ty: ElemType) -> bool
    ensures { result ≡ true → ty ≡ W64 ∷ [] }
{
    ty.len() == 1 && ty.at(0) == Width::W64
}

// Puts the numbers from place `from` up to before `to` into a column.
fn load_numbers(numbers: &[i64], from: u32, to: u32, reversed: bool, column: &mut [i64; 256])
    requires ordered { from ≤ to }
    requires within { to ≤ length numbers.now }
    requires few { to - from ≤ 256 }
    ensures { (j : ℕ) → j < to - from → slice_index_or column.new j (pos 0) ≡ slice_index_or numbers.now (place_of reversed from to j) (pos 0) }
{
    let numbers = &numbers[from as usize..to as usize];
    if reversed {
        copy_back(column, numbers);
    } else {
        copy(column, numbers);
    }
}

// Puts the numbers from `from` up to before `to` into a column.
fn load_count(from: u32, to: u32, reversed: bool, column: &mut [i64; 256])
    requires ordered { from ≤ to }
    requires few { to - from ≤ 256 }
    ensures { (j : ℕ) → j < to - from → slice_index_or column.new j (pos 0) ≡ pos (place_of reversed from to j) }
{
    if reversed {
        count_down(column, to, (to - from) as usize);
    } else {
        count_up(column, from, (to - from) as usize);
    }
}

// Whether each number is one of w64.
pub(crate) fn all_w64(ty: ElemType) -> bool
    ensures { result ≡ true → list_all is_w64 ty ≡ true }
{
    for i in 0..ty.len() {
        if ty.at(i) != Width::W64 {
            return false;
        }
    }
    true
}
