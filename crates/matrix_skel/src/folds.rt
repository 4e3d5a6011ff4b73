//! The folds of all blocks.

ghost use Rattle.std.specs.Prelude.{◌≡◌, ◌+◌, ◌*◌, ◌<◌, Some, length};
ghost use Rattle.op_laws.specs.Matrices.{rows_of};
ghost use Rattle.op_laws.specs.Folds.{fold_rows};
ghost use Rattle.matrix_skel.specs.Blocks.{cut_at};
ghost use Rattle.matrix_skel.specs.Given.{IsPartFold, IsBlockFold, EachTicket};

use crate::part::{Part, fold_part, join_across, join_down};
use crate::squares::Squares;
use crate::table::table;
use op_laws::{Abiding, Matrix};
use std::alloc::{AllocError, Global};
use worker_split::Task;

/// A matrix, an operator that takes its cells, and its blocks. As a task: the fold of each block.
#[derive(Drop)]
pub struct Folds<'a, A: Abiding<C = C>, C> {
    pub a: &'a Matrix,
    pub op: &'a A,
    pub squares: Squares,
    ghost takes: { ∥ A.takes op.now a.now.ty ∥₁ },
    ghost rows: { squares.down.len ≡ a.now.rows },
    ghost cols: { squares.right.len ≡ a.now.cols },
}

impl<'a, A: Abiding<C = C> + Sync, C: Copy + Send + Sync + Drop> Task for Folds<'a, A, C> {
    type Out = C;

    ghost gives = { λ b. IsBlockFold (A.fits b.op.now) (A.lifted b.op.now) (A.downwards b.op.now) (A.sideways b.op.now) (rows_of b.a.now) b.squares.down.len b.squares.right.len b.squares.down.block b.squares.right.block b.squares.right.count };

    ghost count = { λ b. b.squares.count };

    fn tickets(&self) -> u32 {
        self.squares.count
    }

    fn run(&self, _alloc: Global, ticket: u32) -> Result<C, AllocError> {
        let p = self.squares.row_of(ticket);
        let q = self.squares.col_of(ticket);
        let top = self.squares.down.at(p);
        let bottom = self.squares.down.end(p);
        let left = self.squares.right.at(q);
        let right = self.squares.right.end(q);
        confirm(self.op, self.a);
        let part = Part {
            top,
            bottom,
            left,
            right,
        };
        Ok(fold_part(self.a, self.op, part))
    }
}

impl<'a, A: Abiding<C = C>, C: Copy + Drop> Folds<'a, A, C> {
    /// The fold of the whole matrix, from the folds of its blocks.
    pub fn total(&self, folds: &[C]) -> C
        requires takes { A.takes self.now.op.now self.now.a.now.ty }
        requires count { length folds.now ≡ self.now.squares.count }
        requires folds { EachTicket (IsBlockFold (A.fits self.now.op.now) (A.lifted self.now.op.now) (A.downwards self.now.op.now) (A.sideways self.now.op.now) (rows_of self.now.a.now) self.now.squares.down.len self.now.squares.right.len self.now.squares.down.block self.now.squares.right.block self.now.squares.right.count) self.now.squares.count folds.now }
        ensures value { fold_rows (A.lifted self.now.op.now) (A.downwards self.now.op.now) (A.sideways self.now.op.now) (rows_of self.now.a.now) ≡ Some result }
        ensures fits { A.fits self.now.op.now result (self.now.a.now.rows * self.now.a.now.cols) }
    {
        table(self.a);
        let right = self.squares.right.len();
        let mut held = self.strip(folds, 0);
        for p in 1..self.squares.down.count() {
            let middle = self.squares.down.at(p);
            let bottom = self.squares.down.end(p);
            let own = self.strip(folds, p);
            let whole = Part {
                top: 0,
                bottom,
                left: 0,
                right,
            };
            held = join_down(self.a, self.op, whole, middle, held, own);
        }
        held
    }

    // The fold of block row `p`, from the folds of its blocks.
    fn strip(&self, folds: &[C], p: u32) -> C
        requires takes { A.takes self.now.op.now self.now.a.now.ty }
        requires count { length folds.now ≡ self.now.squares.count }
        requires folds { EachTicket (IsBlockFold (A.fits self.now.op.now) (A.lifted self.now.op.now) (A.downwards self.now.op.now) (A.sideways self.now.op.now) (rows_of self.now.a.now) self.now.squares.down.len self.now.squares.right.len self.now.squares.down.block self.now.squares.right.block self.now.squares.right.count) self.now.squares.count folds.now }
        requires row { p < self.now.squares.down.count }
        ensures { IsPartFold (A.fits self.now.op.now) (A.lifted self.now.op.now) (A.downwards self.now.op.now) (A.sideways self.now.op.now) (rows_of self.now.a.now) (cut_at self.now.squares.down.len self.now.squares.down.block p) (cut_at self.now.squares.down.len self.now.squares.down.block (p + 1)) 0 self.now.squares.right.len result }
    {
        let top = self.squares.down.at(p);
        let bottom = self.squares.down.end(p);
        let mut held = self.block(folds, p, 0);
        for q in 1..self.squares.right.count() {
            let middle = self.squares.right.at(q);
            let right = self.squares.right.end(q);
            let own = self.block(folds, p, q);
            let whole = Part {
                top,
                bottom,
                left: 0,
                right,
            };
            held = join_across(self.a, self.op, whole, middle, held, own);
        }
        held
    }

    // The fold of the block in block row `p` and block column `q`.
    #[inline(always)]
    fn block(&self, folds: &[C], p: u32, q: u32) -> C
        requires count { length folds.now ≡ self.now.squares.count }
        requires folds { EachTicket (IsBlockFold (A.fits self.now.op.now) (A.lifted self.now.op.now) (A.downwards self.now.op.now) (A.sideways self.now.op.now) (rows_of self.now.a.now) self.now.squares.down.len self.now.squares.right.len self.now.squares.down.block self.now.squares.right.block self.now.squares.right.count) self.now.squares.count folds.now }
        requires row { p < self.now.squares.down.count }
        requires column { q < self.now.squares.right.count }
        ensures { IsPartFold (A.fits self.now.op.now) (A.lifted self.now.op.now) (A.downwards self.now.op.now) (A.sideways self.now.op.now) (rows_of self.now.a.now) (cut_at self.now.squares.down.len self.now.squares.down.block p) (cut_at self.now.squares.down.len self.now.squares.down.block (p + 1)) (cut_at self.now.squares.right.len self.now.squares.right.block q) (cut_at self.now.squares.right.len self.now.squares.right.block (q + 1)) result }
    {
        let place = self.squares.place(p, q);
        folds[place as usize]
    }
}

/// Asks the operator once more whether it takes the cells: a task keeps no more of that fact than
/// that it holds, and by this call it is known as the operator says it.
#[inline(always)]
pub fn confirm<A: Abiding>(op: &A, a: &Matrix)
    requires { ∥ A.takes op.now a.now.ty ∥₁ }
    ensures { A.takes op.now a.now.ty }
{
    let _takes = op.accepts(a.cells().ty());
}
