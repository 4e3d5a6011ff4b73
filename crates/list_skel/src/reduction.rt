//! Reductions of a pipe.

ghost use Rattle.std.specs.Prelude.{◌≡◌, ◌≤◌, IfOk, IfSome, unwrap_or};
ghost use Rattle.op_laws.specs.declared.TheConstants.{MAX_ELEMENTS as MOST};
ghost use Rattle.list_fusion.specs.Pipes.{type_of, elements};
ghost use Rattle.list_skel.specs.Skeletons.{reduce_of};

use crate::blocks::Blocks;
use crate::folds::Folds;
use list_fusion::Pipe;
use op_laws::{Monoid, Tup};
use std::alloc::{AllocError, Global};
use std::thread::Threads;
use worker_split::{Cut, Gate, run_tasks};

/// What an operator with a unit makes of all elements of a pipe. Workers fold its blocks, one ticket
/// a block, and no list is built.
pub fn reduce<R: Threads + Sync, M: Monoid + Sync, G: Gate>(
    rt: &R,
    alloc: Global,
    pipe: &Pipe,
    op: &M,
    cut: Cut,
    gate: &G,
) -> Result<Tup, AllocError>
where
    M::C: Send + Sync,
    requires { M.takes op.now (type_of pipe.now) }
    ensures { IfOk result (λ t. t ≡ reduce_of (M.finished op.now) (M.nothing op.now) (M.lifted op.now) (M.combined op.now) (elements pipe.now)) }
{
    reduce_by(rt, alloc, pipe, op, cut, gate)
}

// The same with a name of its own for the type of values.
fn reduce_by<R: Threads + Sync, M: Monoid<C = C> + Sync, C: Copy + Send + Sync + Drop, G: Gate>(
    rt: &R,
    alloc: Global,
    pipe: &Pipe,
    op: &M,
    cut: Cut,
    gate: &G,
) -> Result<Tup, AllocError>
    requires { M.takes op.now (type_of pipe.now) }
    ensures { IfOk result (λ t. t ≡ reduce_of (M.finished op.now) (M.nothing op.now) (M.lifted op.now) (M.combined op.now) (elements pipe.now)) }
{
    let len = pipe.head_len();
    let blocks = Blocks::of(len, cut.block);
    let task = Folds { pipe, op, blocks };
    let folds = run_tasks(rt, alloc, cut.workers, &task, gate)?;
    Ok(finished(op, task.total(folds.as_slice()), len))
}

// The element that a fold stands for, or the operator's element of nothing.
fn finished<M: Monoid>(op: &M, held: Option<M::C>, n: u32) -> Tup
    requires few { n ≤ MOST }
    requires held { IfSome held (λ c. M.fits op.now c n) }
    ensures { result ≡ M.finished op.now (unwrap_or held (M.nothing op.now)) }
{
    match held {
        None => op.finish(op.unit(), n),
        Some(c) => op.finish(c, n),
    }
}
