//! Folds of parts of a matrix.

ghost use Rattle.std.specs.Prelude.{◌≡◌, ◌+◌, ◌<◌, ◌≤◌};
ghost use Rattle.op_laws.specs.Matrices.{rows_of};
ghost use Rattle.matrix_skel.specs.Given.{IsPartFold};

use crate::table::table;
use op_laws::{Abiding, Matrix, matrices_are_cut};

/// The rows from `top` up to before `bottom`, of each the cells from column `left` up to before
/// `right`.
#[derive(Clone, Copy, Debug)]
pub struct Part {
    pub top: u32,
    pub bottom: u32,
    pub left: u32,
    pub right: u32,
}

/// The value of a part that is cut before row `middle`, from those of its upper and its lower part.
#[inline(always)]
pub fn join_down<A: Abiding>(
    a: &Matrix,
    op: &A,
    whole: Part,
    middle: u32,
    upper: A::C,
    lower: A::C,
) -> A::C
    requires takes { A.takes op.now a.now.ty }
    requires above { whole.top ≤ middle }
    requires below { middle ≤ whole.bottom }
    requires rows { whole.bottom ≤ a.now.rows }
    requires ordered { whole.left ≤ whole.right }
    requires columns { whole.right ≤ a.now.cols }
    requires upper { IsPartFold (A.fits op.now) (A.lifted op.now) (A.downwards op.now) (A.sideways op.now) (rows_of a.now) whole.top middle whole.left whole.right upper }
    requires lower { IsPartFold (A.fits op.now) (A.lifted op.now) (A.downwards op.now) (A.sideways op.now) (rows_of a.now) middle whole.bottom whole.left whole.right lower }
    ensures { IsPartFold (A.fits op.now) (A.lifted op.now) (A.downwards op.now) (A.sideways op.now) (rows_of a.now) whole.top whole.bottom whole.left whole.right result }
{
    table(a);
    matrices_are_cut(op);
    let width = whole.right - whole.left;
    let first = (middle - whole.top) * width;
    let second = (whole.bottom - middle) * width;
    op.down(upper, first, lower, second)
}

/// The value of a part that is cut before column `middle`, from those of its left and its right
/// part.
#[inline(always)]
pub fn join_across<A: Abiding>(
    a: &Matrix,
    op: &A,
    whole: Part,
    middle: u32,
    left: A::C,
    right: A::C,
) -> A::C
    requires takes { A.takes op.now a.now.ty }
    requires ordered { whole.top ≤ whole.bottom }
    requires rows { whole.bottom ≤ a.now.rows }
    requires before { whole.left ≤ middle }
    requires behind { middle ≤ whole.right }
    requires columns { whole.right ≤ a.now.cols }
    requires left { IsPartFold (A.fits op.now) (A.lifted op.now) (A.downwards op.now) (A.sideways op.now) (rows_of a.now) whole.top whole.bottom whole.left middle left }
    requires right { IsPartFold (A.fits op.now) (A.lifted op.now) (A.downwards op.now) (A.sideways op.now) (rows_of a.now) whole.top whole.bottom middle whole.right right }
    ensures { IsPartFold (A.fits op.now) (A.lifted op.now) (A.downwards op.now) (A.sideways op.now) (rows_of a.now) whole.top whole.bottom whole.left whole.right result }
{
    table(a);
    matrices_are_cut(op);
    let height = whole.bottom - whole.top;
    let first = height * (middle - whole.left);
    let second = height * (whole.right - middle);
    op.across(left, first, right, second)
}

// The value of one cell.
#[inline(always)]
fn fold_cell<A: Abiding>(a: &Matrix, op: &A, i: u32, j: u32) -> A::C
    requires takes { A.takes op.now a.now.ty }
    requires row { i < a.now.rows }
    requires column { j < a.now.cols }
    ensures { IsPartFold (A.fits op.now) (A.lifted op.now) (A.downwards op.now) (A.sideways op.now) (rows_of a.now) i (i + 1) j (j + 1) result }
{
    table(a);
    let cell = a.at(i, j);
    op.lift(cell)
}

// The value of the cells of row `i` from column `left` up to before `right`.
#[inline(always)]
fn fold_row<A: Abiding>(a: &Matrix, op: &A, i: u32, left: u32, right: u32) -> A::C
    requires takes { A.takes op.now a.now.ty }
    requires row { i < a.now.rows }
    requires some { left < right }
    requires columns { right ≤ a.now.cols }
    ensures { IsPartFold (A.fits op.now) (A.lifted op.now) (A.downwards op.now) (A.sideways op.now) (rows_of a.now) i (i + 1) left right result }
{
    // By this call it is known that the number of the next row fits.
    let _rows = a.rows();
    let mut held = fold_cell(a, op, i, left);
    for j in left + 1..right {
        let own = fold_cell(a, op, i, j);
        let whole = Part {
            top: i,
            bottom: i + 1,
            left,
            right: j + 1,
        };
        held = join_across(a, op, whole, j, held, own);
    }
    held
}

/// The value of a part with a row and a column: its rows joined across, one after another, and their
/// values joined downwards.
pub fn fold_part<A: Abiding>(a: &Matrix, op: &A, part: Part) -> A::C
    requires takes { A.takes op.now a.now.ty }
    requires some_row { part.top < part.bottom }
    requires rows { part.bottom ≤ a.now.rows }
    requires some_column { part.left < part.right }
    requires columns { part.right ≤ a.now.cols }
    ensures { IsPartFold (A.fits op.now) (A.lifted op.now) (A.downwards op.now) (A.sideways op.now) (rows_of a.now) part.top part.bottom part.left part.right result }
{
    let Part {
        top,
        bottom,
        left,
        right,
    } = part;
    let mut held = fold_row(a, op, top, left, right);
    for i in top + 1..bottom {
        let own = fold_row(a, op, i, left, right);
        let whole = Part {
            top,
            bottom: i + 1,
            left,
            right,
        };
        held = join_down(a, op, whole, i, held, own);
    }
    held
}
