//! Matrices, kept as the list of their cells.

ghost use Rattle.std.specs.Prelude.{◌≡◌, ◌+◌, ◌*◌, ◌<◌, ◌≤◌, [], length, slice_index_or};
ghost use Rattle.std.specs.List.{flat_map};
ghost use Rattle.op_laws.specs.Admits.{Admits};
ghost use Rattle.op_laws.specs.Matrices.{Grid, IsGrid, rows_of, cell_at, column_at};

use crate::list::List;
use crate::tup::Tup;
use std::marker::Model;

/// Cells of one type in rows of equal length. There is at least one row and one column.
#[derive(Drop, Debug)]
pub struct Matrix {
    rows: u32,
    cols: u32,
    cells: List,
}

impl Model for Matrix {
    ghost use Rattle.op_laws.specs.Matrices.{Grid, IsGrid};

    ghost Value = { Grid };

    ghost view = { λ m. record { ty = m.cells.ty; rows = m.rows; cols = m.cols; cells = m.cells.items } };

    ghost invariant = { λ m. IsGrid (record { ty = m.cells.ty; rows = m.rows; cols = m.cols; cells = m.cells.items }) };
}

impl Matrix {
    /// The matrix with these cells, row after row. The list becomes the matrix: nothing is copied.
    pub fn of_cells(rows: u32, cols: u32, cells: List) -> Matrix
        requires some_row { 1 ≤ rows }
        requires some_column { 1 ≤ cols }
        requires full { length cells.items ≡ rows * cols }
        ensures value { result ≡ record { ty = cells.ty; rows = rows; cols = cols; cells = cells.items } }
        ensures by_rows { flat_map (λ row. row) (rows_of result) ≡ cells.items }
    {
        // By this call it is known that the cells are fewer than 2^32.
        let _count = cells.len();
        Matrix { rows, cols, cells }
    }

    /// How many rows there are.
    #[inline(always)]
    pub fn rows(&self) -> u32
        ensures value { result ≡ self.now.rows }
        ensures grid { IsGrid self.now }
    {
        self.rows
    }

    /// How many columns there are.
    #[inline(always)]
    pub fn cols(&self) -> u32
        ensures value { result ≡ self.now.cols }
        ensures grid { IsGrid self.now }
    {
        self.cols
    }

    /// The cell of row `i` and column `j`, both from 0 on.
    #[inline(always)]
    pub fn at(&self, i: u32, j: u32) -> Tup
        requires row { i < self.now.rows }
        requires column { j < self.now.cols }
        ensures value { result ≡ cell_at self.now i j }
        ensures in_column { result ≡ slice_index_or (column_at self.now j) i [] }
        ensures place { result ≡ slice_index_or self.now.cells (i * self.now.cols + j) [] }
        ensures admitted { Admits self.now.ty result }
    {
        self.cells.at(i * self.cols + j)
    }

    /// The cells, row after row.
    #[inline(always)]
    pub fn cells(&self) -> &List
        ensures value { result.now ≡ record { ty = self.now.ty; items = self.now.cells } }
        ensures grid { IsGrid self.now }
    {
        &self.cells
    }

    /// The cells, row after row, as the list that they are kept in.
    #[inline(always)]
    pub fn into_cells(self) -> List
        ensures value { result ≡ record { ty = self.ty; items = self.cells } }
        ensures grid { IsGrid self }
    {
        self.cells
    }
}
