//! The folds of all blocks.

ghost use Rattle.std.specs.Prelude.{◌≡◌, ◌+◌, ◌≤◌, true, false, length, IfOk, IfSome};
ghost use Rattle.op_laws.specs.declared.TheConstants.{MAX_ELEMENTS as MOST};
ghost use Rattle.op_laws.specs.Folds.{fold_of, beside};
ghost use Rattle.list_fusion.specs.Pipes.{type_of, elements};
ghost use Rattle.list_skel.specs.Given.{IsBlockFold, IsOuterFold, EachBlock};

use crate::blocks::Blocks;
use list_fusion::{Pipe, blocks_follow, fold_block};
use op_laws::Semi;
use std::alloc::{AllocError, Global};
use worker_split::Task;

/// A pipe, an operator that takes its elements, and the blocks of its head. As a task: the fold of
/// each block.
#[derive(Drop)]
pub struct Folds<'a, 'p, M: Semi<C = C>, C> {
    pub pipe: &'a Pipe<'p>,
    pub op: &'a M,
    pub blocks: Blocks,
    ghost takes: { ∥ M.takes op.now (type_of pipe.now) ∥₁ },
    ghost long: { blocks.len ≡ length pipe.now.head.items },
}

impl<'a, 'p, M: Semi<C = C> + Sync, C: Copy + Send + Sync + Drop> Task for Folds<'a, 'p, M, C> {
    type Out = Option<C>;

    ghost gives = { λ b t out. IsBlockFold (M.fits b.op.now) (M.lifted b.op.now) (M.combined b.op.now) b.pipe.now b.blocks.len b.blocks.block t out };

    ghost count = { λ b. b.blocks.count };

    fn tickets(&self) -> u32 {
        self.blocks.count()
    }

    fn run(&self, _alloc: Global, ticket: u32) -> Result<Option<C>, AllocError> {
        let from = self.blocks.at(ticket);
        let to = self.blocks.end(ticket);
        confirm(self.op, self.pipe);
        Ok(fold_block(self.pipe, self.op, from, to))
    }
}

impl<'a, 'p, M: Semi<C = C>, C: Copy + Drop> Folds<'a, 'p, M, C> {
    /// The fold of the whole list, from the folds of its blocks.
    pub fn total(&self, folds: &[Option<C>]) -> Option<C>
        requires takes { M.takes self.now.op.now (type_of self.now.pipe.now) }
        requires count { length folds.now ≡ self.now.blocks.count }
        requires folds { EachBlock (IsBlockFold (M.fits self.now.op.now) (M.lifted self.now.op.now) (M.combined self.now.op.now) self.now.pipe.now self.now.blocks.len self.now.blocks.block) self.now.blocks.count folds.now }
        ensures value { result ≡ fold_of (M.lifted self.now.op.now) (M.combined self.now.op.now) (elements self.now.pipe.now) }
        ensures fits { IfSome result (λ c. M.fits self.now.op.now c self.now.blocks.len) }
    {
        blocks_follow();
        let mut held = None;
        for t in 0..self.blocks.count() {
            let from = self.blocks.at(t);
            let to = self.blocks.end(t);
            let own = folds[t as usize];
            held = joined(self.op, held, from, own, to - from);
        }
        held
    }

    /// For each block the fold of what stands before it, or with `back` behind it, from the folds of
    /// the blocks.
    pub fn outers(
        &self,
        alloc: Global,
        folds: &[Option<C>],
        back: bool,
    ) -> Result<Vec<Option<C>>, AllocError>
        requires takes { M.takes self.now.op.now (type_of self.now.pipe.now) }
        requires count { length folds.now ≡ self.now.blocks.count }
        requires folds { EachBlock (IsBlockFold (M.fits self.now.op.now) (M.lifted self.now.op.now) (M.combined self.now.op.now) self.now.pipe.now self.now.blocks.len self.now.blocks.block) self.now.blocks.count folds.now }
        ensures count { IfOk result (λ v. length v.items ≡ self.now.blocks.count) }
        ensures outers { IfOk result (λ v. EachBlock (IsOuterFold (M.lifted self.now.op.now) (M.combined self.now.op.now) self.now.pipe.now self.now.blocks.len self.now.blocks.block back) self.now.blocks.count v.items) }
    {
        if back {
            self.behinds(alloc, folds)
        } else {
            self.befores(alloc, folds)
        }
    }

    fn befores(&self, alloc: Global, folds: &[Option<C>]) -> Result<Vec<Option<C>>, AllocError>
        requires takes { M.takes self.now.op.now (type_of self.now.pipe.now) }
        requires count { length folds.now ≡ self.now.blocks.count }
        requires folds { EachBlock (IsBlockFold (M.fits self.now.op.now) (M.lifted self.now.op.now) (M.combined self.now.op.now) self.now.pipe.now self.now.blocks.len self.now.blocks.block) self.now.blocks.count folds.now }
        ensures count { IfOk result (λ v. length v.items ≡ self.now.blocks.count) }
        ensures outers { IfOk result (λ v. EachBlock (IsOuterFold (M.lifted self.now.op.now) (M.combined self.now.op.now) self.now.pipe.now self.now.blocks.len self.now.blocks.block false) self.now.blocks.count v.items) }
    {
        blocks_follow();
        let mut all = Vec::with_capacity(alloc, folds.len())?;
        let mut held = None;
        for t in 0..self.blocks.count() {
            all.push(held)?;
            let from = self.blocks.at(t);
            let to = self.blocks.end(t);
            let own = folds[t as usize];
            held = joined(self.op, held, from, own, to - from);
        }
        Ok(all)
    }

    // From the last block to the first, and then turned round.
    fn behinds(&self, alloc: Global, folds: &[Option<C>]) -> Result<Vec<Option<C>>, AllocError>
        requires takes { M.takes self.now.op.now (type_of self.now.pipe.now) }
        requires count { length folds.now ≡ self.now.blocks.count }
        requires folds { EachBlock (IsBlockFold (M.fits self.now.op.now) (M.lifted self.now.op.now) (M.combined self.now.op.now) self.now.pipe.now self.now.blocks.len self.now.blocks.block) self.now.blocks.count folds.now }
        ensures count { IfOk result (λ v. length v.items ≡ self.now.blocks.count) }
        ensures outers { IfOk result (λ v. EachBlock (IsOuterFold (M.lifted self.now.op.now) (M.combined self.now.op.now) self.now.pipe.now self.now.blocks.len self.now.blocks.block true) self.now.blocks.count v.items) }
    {
        blocks_follow();
        let mut all = Vec::with_capacity(alloc, folds.len())?;
        let mut held = None;
        let count = self.blocks.count();
        for k in 0..count {
            all.push(held)?;
            let t = count - 1 - k;
            let from = self.blocks.at(t);
            let to = self.blocks.end(t);
            let behind = self.blocks.outside(t, true);
            let own = folds[t as usize];
            held = joined(self.op, own, to - from, held, behind);
        }
        all.reverse();
        Ok(all)
    }
}

/// Asks the operator once more whether it takes the pipe's elements: a task keeps no more of that
/// fact than that it holds, and by this call it is known as the operator says it.
#[inline(always)]
pub fn confirm<M: Semi>(op: &M, pipe: &Pipe)
    requires { ∥ M.takes op.now (type_of pipe.now) ∥₁ }
    ensures { M.takes op.now (type_of pipe.now) }
{
    let _takes = op.accepts(pipe.ty());
}

/// What is held, of weight `m`, and what follows it, of weight `n`.
#[inline(always)]
pub fn joined<M: Semi>(op: &M, a: Option<M::C>, m: u32, b: Option<M::C>, n: u32) -> Option<M::C>
    requires few { m + n ≤ MOST }
    requires first { IfSome a (λ c. M.fits op.now c m) }
    requires second { IfSome b (λ c. M.fits op.now c n) }
    ensures value { result ≡ beside (M.combined op.now) a b }
    ensures fits { IfSome result (λ c. M.fits op.now c (m + n)) }
{
    match (a, b) {
        (None, _) => b,
        (_, None) => a,
        (Some(x), Some(y)) => Some(op.combine(x, m, y, n)),
    }
}
