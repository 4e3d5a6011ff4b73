//! Reductions and scans by an operator's name.

ghost use Rattle.std.specs.Prelude.{◌≡◌, not, map, IfOk, IsOk, IsTrue, Some, Ok};
ghost use Rattle.std.specs.List.{All};
ghost use Rattle.op_laws.specs.Admits.{Admits};
ghost use Rattle.op_catalog.specs.Catalog.{is_end, typed_of, reduction_of};
ghost use Rattle.op_catalog.specs.Operators.{IsOperatorOf, IsMonoidOf};
ghost use Rattle.list_fusion.specs.Pipes.{type_of, elements};
ghost use Rattle.op_laws.specs.Lists.{prefixes, suffixes};
ghost use Rattle.script_lang.specs.declared.op.Op.TheVariants.{Flat};
ghost use Rattle.fuse_rewrite.specs.Meaning.{reduced_by};

use list_fusion::Pipe;
use list_skel::{Cut, reduce, scan, scanr};
use op_catalog::{ListOp, with_list_monoid, with_list_operator};
use op_laws::{List, Monoid, Semi, Tup};
use std::alloc::{AllocError, Global};
use std::thread::Threads;
use worker_split::Gate;

// What the operator of this name makes of the elements of a pipe.
fn reduced_with<R: Threads + Sync, M: Monoid + Sync, G: Gate>(
    rt: &R,
    alloc: Global,
    pipe: &Pipe,
    name: ListOp,
    op: &M,
    cut: Cut,
    gate: &G,
) -> Result<Tup, AllocError>
where
    M::C: Send + Sync,
    requires operator { IsMonoidOf (M.takes op.now) (M.gives op.now) (M.finished op.now) (M.nothing op.now) (M.lifted op.now) (M.combined op.now) name (type_of pipe.now) }
    requires admitted { All (Admits (type_of pipe.now)) (elements pipe.now) }
    ensures { IfOk result (λ t. t ≡ reduced_by (Flat name) (type_of pipe.now) (elements pipe.now)) }
{
    reduce(rt, alloc, pipe, op, cut, gate)
}

/// What an operator with a unit makes of the elements of a pipe.
pub(crate) fn reduced<R: Threads + Sync, G: Gate>(
    rt: &R,
    alloc: Global,
    pipe: &Pipe,
    name: ListOp,
    cut: Cut,
    gate: &G,
) -> Result<Tup, AllocError>
    requires typed { IsOk (typed_of name (type_of pipe.now)) }
    requires unit { IsTrue (not (is_end name)) }
    requires admitted { All (Admits (type_of pipe.now)) (elements pipe.now) }
    ensures { IfOk result (λ t. t ≡ reduced_by (Flat name) (type_of pipe.now) (elements pipe.now)) }
{
    with_list_monoid!(name, pipe.ty(), op => reduced_with(rt, alloc, pipe, name, &op, cut, gate))
}

// For each element what the operator of this name makes of those up to it.
fn scanned_with<R: Threads + Sync, M: Semi + Sync, G: Gate>(
    rt: &R,
    alloc: Global,
    pipe: &Pipe,
    name: ListOp,
    op: &M,
    cut: Cut,
    gate: &G,
) -> Result<List, AllocError>
where
    M::C: Send + Sync,
    requires operator { IsOperatorOf (M.takes op.now) (M.gives op.now) (M.finished op.now) (M.lifted op.now) (M.combined op.now) name (type_of pipe.now) }
    requires admitted { All (Admits (type_of pipe.now)) (elements pipe.now) }
    ensures ty { IfOk result (λ x. typed_of name (type_of pipe.now) ≡ Ok x.ty) }
    ensures items { IfOk result (λ x. x.items ≡ map (reduced_by (Flat name) (type_of pipe.now)) (prefixes (elements pipe.now))) }
{
    scan(rt, alloc, pipe, op, cut, gate)
}

/// For each element of a pipe what an operator makes of those up to it.
pub(crate) fn scanned<R: Threads + Sync, G: Gate>(
    rt: &R,
    alloc: Global,
    pipe: &Pipe,
    name: ListOp,
    cut: Cut,
    gate: &G,
) -> Result<List, AllocError>
    requires typed { IsOk (typed_of name (type_of pipe.now)) }
    requires admitted { All (Admits (type_of pipe.now)) (elements pipe.now) }
    ensures ty { IfOk result (λ x. typed_of name (type_of pipe.now) ≡ Ok x.ty) }
    ensures items { IfOk result (λ x. x.items ≡ map (reduced_by (Flat name) (type_of pipe.now)) (prefixes (elements pipe.now))) }
{
    with_list_operator!(name, pipe.ty(), op => scanned_with(rt, alloc, pipe, name, &op, cut, gate))
}

// For each element what the operator of this name makes of those from it on.
fn scanned_back_with<R: Threads + Sync, M: Semi + Sync, G: Gate>(
    rt: &R,
    alloc: Global,
    pipe: &Pipe,
    name: ListOp,
    op: &M,
    cut: Cut,
    gate: &G,
) -> Result<List, AllocError>
where
    M::C: Send + Sync,
    requires operator { IsOperatorOf (M.takes op.now) (M.gives op.now) (M.finished op.now) (M.lifted op.now) (M.combined op.now) name (type_of pipe.now) }
    requires admitted { All (Admits (type_of pipe.now)) (elements pipe.now) }
    ensures ty { IfOk result (λ x. typed_of name (type_of pipe.now) ≡ Ok x.ty) }
    ensures items { IfOk result (λ x. x.items ≡ map (reduced_by (Flat name) (type_of pipe.now)) (suffixes (elements pipe.now))) }
{
    scanr(rt, alloc, pipe, op, cut, gate)
}

/// For each element of a pipe what an operator makes of those from it on.
pub(crate) fn scanned_back<R: Threads + Sync, G: Gate>(
    rt: &R,
    alloc: Global,
    pipe: &Pipe,
    name: ListOp,
    cut: Cut,
    gate: &G,
) -> Result<List, AllocError>
    requires typed { IsOk (typed_of name (type_of pipe.now)) }
    requires admitted { All (Admits (type_of pipe.now)) (elements pipe.now) }
    ensures ty { IfOk result (λ x. typed_of name (type_of pipe.now) ≡ Ok x.ty) }
    ensures items { IfOk result (λ x. x.items ≡ map (reduced_by (Flat name) (type_of pipe.now)) (suffixes (elements pipe.now))) }
{
    with_list_operator!(name, pipe.ty(), op => scanned_back_with(rt, alloc, pipe, name, &op, cut, gate))
}
