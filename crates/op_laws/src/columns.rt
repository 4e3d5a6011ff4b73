//! The columns of a list, one for each component.

ghost use Rattle.std.specs.Prelude.{◌≡◌, ◌-◌, ◌<◌, ◌≤◌, [], Some, pos, length, map, reverse, slice_get, slice_index_or, slice_range, OnOk};
ghost use Rattle.std.specs.List.{AllByRecursion};
ghost use Rattle.op_laws.specs.Rows.{rows, with_row, with_row_at, joined, AreEven};

use crate::column::Column;
use crate::elem_type::{ElemType, Widths};
use crate::tup::Tup;
use std::alloc::{AllocError, Global};

#[derive(Debug)]
pub enum Columns {
    One(Column),
    Two(Column, Column),
    Three(Column, Column, Column),
    Four(Column, Column, Column, Column),
}

// By hand, so that where columns are let go there is one call, and not a case for each count.
impl Drop for Columns {
    fn drop(self) {
        match self {
            Columns::One(_) => (),
            Columns::Two(_, _) => (),
            Columns::Three(_, _, _) => (),
            Columns::Four(_, _, _, _) => (),
        }
    }
}

impl Columns {
    ghost use Rattle.op_laws.specs.Columns.{HasRoom, CanKeepFrom, columns_list, numbers_of, is_wide, numbers, kinds};

    // How many rows there are.
    #[inline(always)]
    pub fn len(&self) -> usize
        requires { AreEven (numbers self.now) }
        ensures { result ≡ length (rows (numbers self.now)) }
    {
        match self {
            Columns::One(a)
            | Columns::Two(a, _)
            | Columns::Three(a, _, _)
            | Columns::Four(a, _, _, _) => a.len(),
        }
    }

    // The row at place `i`.
    #[inline(always)]
    pub fn at(&self, i: usize) -> Tup
        requires even { AreEven (numbers self.now) }
        requires within { i < length (rows (numbers self.now)) }
        ensures { result ≡ map (λ xs. slice_index_or xs i (pos 0)) (numbers self.now) }
    {
        match self {
            Columns::One(a) => Tup::one(a.at(i)),
            Columns::Two(a, b) => Tup::two(a.at(i), b.at(i)),
            Columns::Three(a, b, c) => Tup::three(a.at(i), b.at(i), c.at(i)),
            Columns::Four(a, b, c, d) => Tup::four(a.at(i), b.at(i), c.at(i), d.at(i)),
        }
    }

    // Gets memory for `n` rows more.
    pub fn reserve(&mut self, n: usize) -> Result<(), AllocError>
        ensures numbers { numbers self.new ≡ numbers self.old }
        ensures kinds { kinds self.new ≡ kinds self.old }
        ensures room { OnOk result (AllByRecursion (HasRoom n) (columns_list self.new)) }
    {
        match self {
            Columns::One(a) => a.reserve(n)?,
            Columns::Two(a, b) => {
                a.reserve(n)?;
                b.reserve(n)?;
            }
            Columns::Three(a, b, c) => {
                a.reserve(n)?;
                b.reserve(n)?;
                c.reserve(n)?;
            }
            Columns::Four(a, b, c, d) => {
                a.reserve(n)?;
                b.reserve(n)?;
                c.reserve(n)?;
                d.reserve(n)?;
            }
        }
        Ok(())
    }

    // Adds the row `t`.
    #[inline(always)]
    pub fn put(&mut self, t: Tup)
        requires components { length t ≡ length (columns_list self.old) }
        requires can_keep { CanKeepFrom 0 (columns_list self.old) t }
        requires room { AllByRecursion (HasRoom 1) (columns_list self.old) }
        ensures numbers { numbers self.new ≡ with_row 0 (numbers self.old) t }
        ensures kinds { kinds self.new ≡ kinds self.old }
    {
        match self {
            Columns::One(a) => a.put(t, 0),
            Columns::Two(a, b) => {
                a.put(t, 0);
                b.put(t, 1);
            }
            Columns::Three(a, b, c) => {
                a.put(t, 0);
                b.put(t, 1);
                c.put(t, 2);
            }
            Columns::Four(a, b, c, d) => {
                a.put(t, 0);
                b.put(t, 1);
                c.put(t, 2);
                d.put(t, 3);
            }
        }
    }
    // Adds the rows of columns of the same kinds, from place `from` up to before place `to`.
    pub fn append(&mut self, other: &Columns, from: usize, to: usize)
        requires kinds { kinds self.old ≡ kinds other.now }
        requires ordered { from ≤ to }
        requires within { AllByRecursion (λ a. to ≤ length (numbers_of a)) (columns_list other.now) }
        requires room { AllByRecursion (HasRoom (to - from)) (columns_list self.old) }
        ensures numbers { numbers self.new ≡ joined (numbers self.old) (map (λ xs. slice_range xs from to) (numbers other.now)) }
        ensures kinds { kinds self.new ≡ kinds self.old }
    {
        match (self, other) {
            (Columns::One(a), Columns::One(x)) => a.append(x, from, to),
            (Columns::Two(a, b), Columns::Two(x, y)) => {
                a.append(x, from, to);
                b.append(y, from, to);
            }
            (Columns::Three(a, b, c), Columns::Three(x, y, z)) => {
                a.append(x, from, to);
                b.append(y, from, to);
                c.append(z, from, to);
            }
            (Columns::Four(a, b, c, d), Columns::Four(x, y, z, w)) => {
                a.append(x, from, to);
                b.append(y, from, to);
                c.append(z, from, to);
                d.append(w, from, to);
            }
            _ => unreachable!(),
        }
    }

    // Turns the rows round.
    pub fn reverse(&mut self)
        ensures numbers { numbers self.new ≡ map (λ xs. reverse xs) (numbers self.old) }
        ensures kinds { kinds self.new ≡ kinds self.old }
    {
        match self {
            Columns::One(a) => a.reverse(),
            Columns::Two(a, b) => {
                a.reverse();
                b.reverse();
            }
            Columns::Three(a, b, c) => {
                a.reverse();
                b.reverse();
                c.reverse();
            }
            Columns::Four(a, b, c, d) => {
                a.reverse();
                b.reverse();
                c.reverse();
                d.reverse();
            }
        }
    }

    // Puts the row `t` in the place of the one at place `i`.
    #[inline(always)]
    pub fn set(&mut self, i: usize, t: Tup)
        requires within { AllByRecursion (λ a. i < length (numbers_of a)) (columns_list self.old) }
        requires components { length t ≡ length (columns_list self.old) }
        requires can_keep { CanKeepFrom 0 (columns_list self.old) t }
        ensures numbers { numbers self.new ≡ with_row_at i 0 (numbers self.old) t }
        ensures kinds { kinds self.new ≡ kinds self.old }
    {
        match self {
            Columns::One(a) => a.set(i, t, 0),
            Columns::Two(a, b) => {
                a.set(i, t, 0);
                b.set(i, t, 1);
            }
            Columns::Three(a, b, c) => {
                a.set(i, t, 0);
                b.set(i, t, 1);
                c.set(i, t, 2);
            }
            Columns::Four(a, b, c, d) => {
                a.set(i, t, 0);
                b.set(i, t, 1);
                c.set(i, t, 2);
                d.set(i, t, 3);
            }
        }
    }

    // The column at place `k`.
    #[inline(always)]
    pub fn column(&self, k: usize) -> &Column
        requires { k < length (columns_list self.now) }
        ensures numbers { numbers_of result.now ≡ slice_index_or (numbers self.now) k [] }
        ensures kind { slice_get (kinds self.now) k ≡ Some (is_wide result.now) }
    {
        match (self, k) {
            (
                Columns::One(a)
                | Columns::Two(a, _)
                | Columns::Three(a, _, _)
                | Columns::Four(a, _, _, _),
                0,
            ) => a,
            (Columns::Two(_, b) | Columns::Three(_, b, _) | Columns::Four(_, b, _, _), 1) => b,
            (Columns::Three(_, _, c) | Columns::Four(_, _, c, _), 2) => c,
            (Columns::Four(_, _, _, d), _) => d,
            _ => unreachable!(),
        }
    }
}
