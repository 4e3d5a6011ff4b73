//! The list of a pipe.

ghost use Rattle.std.specs.Prelude.{◌≡◌, length, IfOk};
ghost use Rattle.list_fusion.specs.Pipes.{type_of, elements};
ghost use Rattle.list_skel.specs.Blocks.{piece};

use crate::blocks::Blocks;
use crate::joining::join;
use list_fusion::{Pipe, blocks_follow, build_block};
use op_laws::List;
use std::alloc::{AllocError, Global};
use std::thread::Threads;
use worker_split::{Cut, Gate, Task, run_tasks};

// A pipe and the blocks of its head. As a task: each block as a list.
#[derive(Drop)]
struct Builds<'a, 'p> {
    pipe: &'a Pipe<'p>,
    blocks: Blocks,
    ghost long: { blocks.len ≡ length pipe.now.head.items },
}

impl<'a, 'p> Task for Builds<'a, 'p> {
    type Out = List;

    ghost gives = { λ b t x. (x.ty ≡ type_of b.pipe.now) × (x.items ≡ piece b.pipe.now b.blocks.len b.blocks.block t) };

    ghost count = { λ b. b.blocks.count };

    fn tickets(&self) -> u32 {
        self.blocks.count()
    }

    fn run(&self, alloc: Global, ticket: u32) -> Result<List, AllocError> {
        let from = self.blocks.at(ticket);
        let to = self.blocks.end(ticket);
        build_block(alloc, self.pipe, from, to)
    }
}

/// The elements of a pipe as a list. Workers build its blocks, one ticket a block, and the blocks
/// are put together column by column.
pub fn build<R: Threads + Sync, G: Gate>(
    rt: &R,
    alloc: Global,
    pipe: &Pipe,
    cut: Cut,
    gate: &G,
) -> Result<List, AllocError>
    ensures ty { IfOk result (λ x. x.ty ≡ type_of pipe.now) }
    ensures items { IfOk result (λ x. x.items ≡ elements pipe.now) }
{
    blocks_follow();
    let blocks = Blocks::of(pipe.head_len(), cut.block);
    let lists = run_tasks(rt, alloc, cut.workers, &Builds { pipe, blocks }, gate)?;
    join(alloc, pipe.ty(), lists.as_slice())
}
