//! Scans of a pipe, from the front and from behind.

ghost use Rattle.std.specs.Prelude.{◌≡◌, length, IfOk};
ghost use Rattle.std.specs.List.{All};
ghost use Rattle.std.proofs.Props.{props};
ghost use Rattle.op_laws.specs.Admits.{Admits};
ghost use Rattle.list_fusion.specs.Pipes.{type_of, elements, block_of};
ghost use Rattle.list_skel.specs.Given.{IsBlockScan, IsOuterFold, EachBlock};
ghost use Rattle.list_skel.specs.Props.{Admits-prop};
ghost use Rattle.list_skel.specs.Skeletons.{scan_of, scanr_of, either_scan};

use crate::blocks::Blocks;
use crate::folds::{Folds, confirm};
use crate::joining::join;
use list_fusion::{Pipe, blocks_follow, scan_block};
use op_laws::{List, Semi};
use std::alloc::{AllocError, Global};
use std::thread::Threads;
use worker_split::{Cut, Gate, Task, run_tasks};

// A pipe, an operator that takes its elements, the blocks of its head, and for each block the fold
// of what stands before it, or behind it. As a task: the scan of each block.
#[derive(Drop)]
struct Scans<'a, 'p, M: Semi<C = C>, C> {
    pipe: &'a Pipe<'p>,
    op: &'a M,
    blocks: Blocks,
    held: &'a [Option<C>],
    back: bool,
    ghost takes: { ∥ M.takes op.now (type_of pipe.now) ∥₁ },
    ghost long: { blocks.len ≡ length pipe.now.head.items },
    ghost many: { length held.now ≡ blocks.count },
    ghost admitted: { All (Admits (type_of pipe.now)) (block_of pipe.now 0 blocks.len) } by { Prim.hlevel (props, Admits-prop) },
    ghost outers: { EachBlock (IsOuterFold (M.lifted op.now) (M.combined op.now) pipe.now blocks.len blocks.block back) blocks.count held.now } by { Prim.hlevel props },
}

impl<'a, 'p, M: Semi<C = C> + Sync, C: Copy + Send + Sync + Drop> Task for Scans<'a, 'p, M, C> {
    type Out = List;

    ghost gives = { λ b t x. IsBlockScan (M.finished b.op.now) (M.lifted b.op.now) (M.combined b.op.now) (M.gives b.op.now (type_of b.pipe.now)) b.pipe.now b.blocks.len b.blocks.block b.back t x };

    ghost count = { λ b. b.blocks.count };

    fn tickets(&self) -> u32 {
        self.blocks.count()
    }

    fn run(&self, alloc: Global, ticket: u32) -> Result<List, AllocError> {
        let from = self.blocks.at(ticket);
        let to = self.blocks.end(ticket);
        let places = self.blocks.outside(ticket, self.back);
        let held = self.held[ticket as usize];
        confirm(self.op, self.pipe);
        blocks_follow();
        scan_block(alloc, self.pipe, self.op, held, places, from, to, self.back)
    }
}

impl<'a, 'p, M: Semi<C = C>, C: Copy + Drop> Scans<'a, 'p, M, C> {
    // The scan of the whole list, from the scans of its blocks.
    fn whole(&self, alloc: Global, lists: &[List]) -> Result<List, AllocError>
        requires takes { M.takes self.now.op.now (type_of self.now.pipe.now) }
        requires count { length lists.now ≡ self.now.blocks.count }
        requires scans { EachBlock (IsBlockScan (M.finished self.now.op.now) (M.lifted self.now.op.now) (M.combined self.now.op.now) (M.gives self.now.op.now (type_of self.now.pipe.now)) self.now.pipe.now self.now.blocks.len self.now.blocks.block self.now.back) self.now.blocks.count lists.now }
        ensures ty { IfOk result (λ x. x.ty ≡ M.gives self.now.op.now (type_of self.now.pipe.now)) }
        ensures items { IfOk result (λ x. x.items ≡ either_scan (M.finished self.now.op.now) (M.lifted self.now.op.now) (M.combined self.now.op.now) self.now.back (elements self.now.pipe.now)) }
    {
        blocks_follow();
        join(alloc, self.op.result(self.pipe.ty()), lists)
    }
}

/// For each element of a pipe, in order, what the elements up to it come to. Workers fold the
/// blocks, one ticket a block, and in a second round scan each with what stands before it.
pub fn scan<R: Threads + Sync, M: Semi + Sync, G: Gate>(
    rt: &R,
    alloc: Global,
    pipe: &Pipe,
    op: &M,
    cut: Cut,
    gate: &G,
) -> Result<List, AllocError>
where
    M::C: Send + Sync,
    requires { M.takes op.now (type_of pipe.now) }
    ensures ty { IfOk result (λ x. x.ty ≡ M.gives op.now (type_of pipe.now)) }
    ensures items { IfOk result (λ x. x.items ≡ scan_of (M.finished op.now) (M.lifted op.now) (M.combined op.now) (elements pipe.now)) }
{
    scan_by(rt, alloc, pipe, op, cut, gate, false)
}

/// The same of the elements from it on. The element before is always the left operand.
pub fn scanr<R: Threads + Sync, M: Semi + Sync, G: Gate>(
    rt: &R,
    alloc: Global,
    pipe: &Pipe,
    op: &M,
    cut: Cut,
    gate: &G,
) -> Result<List, AllocError>
where
    M::C: Send + Sync,
    requires { M.takes op.now (type_of pipe.now) }
    ensures ty { IfOk result (λ x. x.ty ≡ M.gives op.now (type_of pipe.now)) }
    ensures items { IfOk result (λ x. x.items ≡ scanr_of (M.finished op.now) (M.lifted op.now) (M.combined op.now) (elements pipe.now)) }
{
    scan_by(rt, alloc, pipe, op, cut, gate, true)
}

// Both, with a name of its own for the type of values.
fn scan_by<R: Threads + Sync, M: Semi<C = C> + Sync, C: Copy + Send + Sync + Drop, G: Gate>(
    rt: &R,
    alloc: Global,
    pipe: &Pipe,
    op: &M,
    cut: Cut,
    gate: &G,
    back: bool,
) -> Result<List, AllocError>
    requires { M.takes op.now (type_of pipe.now) }
    ensures ty { IfOk result (λ x. x.ty ≡ M.gives op.now (type_of pipe.now)) }
    ensures items { IfOk result (λ x. x.items ≡ either_scan (M.finished op.now) (M.lifted op.now) (M.combined op.now) back (elements pipe.now)) }
{
    blocks_follow();
    let blocks = Blocks::of(pipe.head_len(), cut.block);
    let first = Folds { pipe, op, blocks };
    let folds = run_tasks(rt, alloc, cut.workers, &first, gate)?;
    let outers = first.outers(alloc, folds.as_slice(), back)?;
    let held = outers.as_slice();
    let second = Scans {
        pipe,
        op,
        blocks,
        held,
        back,
    };
    let lists = run_tasks(rt, alloc, cut.workers, &second, gate)?;
    second.whole(alloc, lists.as_slice())
}
