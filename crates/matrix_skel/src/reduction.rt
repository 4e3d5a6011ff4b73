//! Reductions of a matrix.

ghost use Rattle.std.specs.Prelude.{◌≡◌, Some, IfOk};
ghost use Rattle.std.specs.Option.{option_map};
ghost use Rattle.op_laws.specs.Matrices.{rows_of};
ghost use Rattle.op_laws.specs.Folds.{fold_rows};

use crate::folds::Folds;
use crate::squares::Squares;
use op_laws::{Abiding, Matrix, Tup};
use std::alloc::{AllocError, Global};
use std::thread::Threads;
use worker_split::{Cut, Gate, run_tasks};

/// What an operator makes of all cells of a matrix: of each row joined across, and of the rows
/// joined downwards. Workers fold its blocks, one ticket a block, and no matrix is built.
pub fn reduce<R: Threads + Sync, A: Abiding + Sync, G: Gate>(
    rt: &R,
    alloc: Global,
    a: &Matrix,
    op: &A,
    cut: Cut,
    gate: &G,
) -> Result<Tup, AllocError>
where
    A::C: Send + Sync,
    requires { A.takes op.now a.now.ty }
    ensures { IfOk result (λ t. option_map (A.finished op.now) (fold_rows (A.lifted op.now) (A.downwards op.now) (A.sideways op.now) (rows_of a.now)) ≡ Some t) }
{
    reduce_by(rt, alloc, a, op, cut, gate)
}

// The same with a name of its own for the type of values.
fn reduce_by<R: Threads + Sync, A: Abiding<C = C> + Sync, C: Copy + Send + Sync + Drop, G: Gate>(
    rt: &R,
    alloc: Global,
    a: &Matrix,
    op: &A,
    cut: Cut,
    gate: &G,
) -> Result<Tup, AllocError>
    requires { A.takes op.now a.now.ty }
    ensures { IfOk result (λ t. option_map (A.finished op.now) (fold_rows (A.lifted op.now) (A.downwards op.now) (A.sideways op.now) (rows_of a.now)) ≡ Some t) }
{
    let squares = Squares::of(a, cut.block);
    let task = Folds { a, op, squares };
    let folds = run_tasks(rt, alloc, cut.workers, &task, gate)?;
    let held = task.total(folds.as_slice());
    Ok(op.finish(held, a.cells().len()))
}
