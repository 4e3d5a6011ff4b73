//! Lists of elements, kept by columns.

ghost use Rattle.std.specs.Prelude.{◌≡◌, ◌≢◌, ◌+◌, ◌-◌, ◌<◌, ◌≤◌, Some, [], ◌∷◌, ◌++◌, pos, length, map, reverse, slice_get, slice_index_or, slice_range, slice_set, OnOk, OnErr};
ghost use Rattle.std.specs.List.{All};
ghost use Rattle.op_laws.specs.declared.width.Width.TheVariants.{W64};
ghost use Rattle.op_laws.specs.Admits.{Admits};
ghost use Rattle.op_laws.specs.Elements.{Elements, singles};
ghost use Rattle.op_laws.specs.Rows.{rows};
ghost use Rattle.op_laws.specs.Columns.{numbers, IsTable};

use crate::MAX_ELEMENTS;
use crate::column::Column;
use crate::columns::Columns;
use crate::elem_type::{ElemType, Widths};
use crate::tup::Tup;
use crate::width::Width;
use std::alloc::{AllocError, Global};
use std::marker::Model;

/// Elements of one type, in order. There is a column for each component: 8 bytes a number for the
/// width w64, and 16 else.
#[derive(Drop, Debug)]
pub struct List {
    ty: ElemType,
    columns: Columns,
}

impl Model for List {
    ghost Value = { Elements };

    ghost view = { λ x. record { ty = x.ty; items = rows (numbers x.columns) } };

    ghost invariant = { λ x. IsTable x.ty x.columns };
}

impl List {
    /// The list of this type that has no elements. It takes no memory yet.
    pub fn new(alloc: Global, ty: ElemType) -> List
        ensures ty { result.ty ≡ ty }
        ensures items { result.items ≡ [] }
    {
        let columns = match ty.widths {
            Widths::One(a) => Columns::One(Column::new(alloc, a)),
            Widths::Two(a, b) => Columns::Two(Column::new(alloc, a), Column::new(alloc, b)),
            Widths::Three(a, b, c) => Columns::Three(
                Column::new(alloc, a),
                Column::new(alloc, b),
                Column::new(alloc, c),
            ),
            Widths::Four(a, b, c, d) => Columns::Four(
                Column::new(alloc, a),
                Column::new(alloc, b),
                Column::new(alloc, c),
                Column::new(alloc, d),
            ),
        };
        List { ty, columns }
    }

    /// The elements of one number each, in order. The vector becomes the list's column: nothing is
    /// copied.
    pub fn of_w64(numbers: Vec<i64>) -> List
        requires { length numbers.items ≤ MAX_ELEMENTS }
        ensures { result ≡ record { ty = W64 ∷ []; items = singles numbers.items } }
    {
        // Each number that is read is known to be a 64-bit one. Compiled code has no such loop.
        for number in &numbers {
            let _read = *number;
        }
        List {
            ty: ElemType::one(Width::W64),
            columns: Columns::One(Column::Narrow(numbers)),
        }
    }

    /// Adds an element at the end. It takes memory only where a column is full. All columns grow
    /// before one gets its number, so after a refusal the list is what it was.
    pub fn push(&mut self, t: Tup) -> Result<(), AllocError>
        requires admitted { Admits self.old.ty t }
        requires room { length self.old.items < MAX_ELEMENTS }
        ensures ok { OnOk result (self.new.items ≡ self.old.items ++ t ∷ []) }
        ensures err { OnErr result (self.new ≡ self.old) }
        ensures ty { self.new.ty ≡ self.old.ty }
    {
        self.columns.reserve(1)?;
        self.columns.put(t);
        Ok(())
    }

    /// How many elements there are.
    #[inline(always)]
    pub fn len(&self) -> u32
        ensures { result ≡ length self.now.items }
    {
        self.columns.len() as u32
    }

    /// The type of the elements.
    #[inline(always)]
    pub fn ty(&self) -> ElemType
        ensures { result ≡ self.now.ty }
    {
        self.ty
    }

    /// The element at place `i`, from 0 on, put together from its columns.
    #[inline(always)]
    pub fn at(&self, i: u32) -> Tup
        requires { i < length self.now.items }
        ensures value { result ≡ slice_index_or self.now.items i [] }
        ensures admitted { Admits self.now.ty result }
    {
        self.columns.at(i as usize)
    }

    /// Each element is one of the list's type. It does nothing: its clause is for proofs that go
    /// over all elements.
    #[inline(always)]
    pub fn admitted(&self)
        ensures { All (Admits self.now.ty) self.now.items }
    {
        let _columns = &self.columns;
    }
    /// Gets memory for `n` elements more, so that as many calls of `push` ask for none.
    pub fn reserve(&mut self, n: u32) -> Result<(), AllocError>
        ensures { self.new ≡ self.old }
    {
        self.columns.reserve(n as usize)
    }

    /// Adds the elements of another list of the same type, from place `from` up to before place
    /// `to`, column by column. All columns grow before one gets its numbers, so after a refusal the
    /// list is what it was.
    pub fn append_range(&mut self, other: &List, from: u32, to: u32) -> Result<(), AllocError>
        requires same { other.now.ty ≡ self.old.ty }
        requires ordered { from ≤ to }
        requires within { to ≤ length other.now.items }
        requires room { length self.old.items + (to - from) ≤ MAX_ELEMENTS }
        ensures ok { OnOk result (self.new.items ≡ self.old.items ++ slice_range other.now.items from to) }
        ensures err { OnErr result (self.new ≡ self.old) }
        ensures ty { self.new.ty ≡ self.old.ty }
    {
        self.columns.reserve((to - from) as usize)?;
        self.columns
            .append(&other.columns, from as usize, to as usize);
        Ok(())
    }

    /// Adds all elements of another list of the same type, as `append_range` does.
    pub fn append(&mut self, other: &List) -> Result<(), AllocError>
        requires same { other.now.ty ≡ self.old.ty }
        requires room { length self.old.items + length other.now.items ≤ MAX_ELEMENTS }
        ensures ok { OnOk result (self.new.items ≡ self.old.items ++ other.now.items) }
        ensures err { OnErr result (self.new ≡ self.old) }
        ensures ty { self.new.ty ≡ self.old.ty }
    {
        self.append_range(other, 0, other.len())
    }

    /// Turns the elements round: the last one becomes the first.
    pub fn reverse(&mut self)
        ensures items { self.new.items ≡ reverse self.old.items }
        ensures ty { self.new.ty ≡ self.old.ty }
    {
        self.columns.reverse();
    }

    /// Puts `t` in the place of the element at place `i`, from 0 on.
    #[inline(always)]
    pub fn set(&mut self, i: u32, t: Tup)
        requires admitted { Admits self.old.ty t }
        requires within { i < length self.old.items }
        ensures items { self.new.items ≡ slice_set self.old.items i t }
        ensures ty { self.new.ty ≡ self.old.ty }
    {
        self.columns.set(i as usize, t);
    }

    /// Of each element its number at place `k`, from 0 on, where that number is of width w64.
    #[inline(always)]
    pub fn numbers_64(&self, k: usize) -> &[i64]
        requires { slice_get self.now.ty k ≡ Some W64 }
        ensures { result.now ≡ map (λ e. slice_index_or e k (pos 0)) self.now.items }
    {
        self.columns.column(k).narrow()
    }

    /// Of each element its number at place `k`, from 0 on, where that number is of another width
    /// than w64.
    #[inline(always)]
    pub fn numbers_128(&self, k: usize) -> &[i128]
        requires place { k < length self.now.ty }
        requires wide { slice_get self.now.ty k ≢ Some W64 }
        ensures { result.now ≡ map (λ e. slice_index_or e k (pos 0)) self.now.items }
    {
        self.columns.column(k).wide()
    }
}
