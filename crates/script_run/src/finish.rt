//! What a skeleton makes of its pipe.

ghost use Rattle.std.specs.Prelude.{◌≡◌, IfOk};
ghost use Rattle.std.specs.Prelude.{List as Seq};
ghost use Rattle.std.specs.List.{All};
ghost use Rattle.op_laws.specs.declared.width.Width.{Width};
ghost use Rattle.op_laws.specs.Admits.{Admits};
ghost use Rattle.list_fusion.specs.Pipes.{type_of, elements};
ghost use Rattle.script_lang.specs.Views.{binding_of, skeleton_of};
ghost use Rattle.script_lang.specs.Sound.{AreSmall};
ghost use Rattle.script_run.specs.Pipes.{passed, passes_on, Passes, Finishes, value_finished};

use crate::reductions::{reduced, scanned, scanned_back};
use crate::stages::pass;
use data_text::Value;
use list_fusion::Pipe;
use list_skel::{Cut, build};
use op_laws::List;
use script_lang::{Bound, Fold, Skel};
use std::alloc::{AllocError, Global};
use std::thread::Threads;
use worker_split::Gate;

// Whether a skeleton makes the list that its pipe has passed.
fn passes_on(skel: &Skel) -> bool
    ensures { result ≡ passes_on (skeleton_of skel.now).head }
{
    match skel {
        Skel::Map { .. }
        | Skel::Filter { .. }
        | Skel::Rev { .. }
        | Skel::Zip { .. }
        | Skel::Iota { .. }
        | Skel::Plain { .. } => true,
        Skel::Mapln { .. }
        | Skel::Reduce { .. }
        | Skel::ReduceBoth { .. }
        | Skel::Scan { .. }
        | Skel::Scanr { .. }
        | Skel::ScanBoth { .. }
        | Skel::Rows { .. }
        | Skel::Cols { .. }
        | Skel::Transpose { .. }
        | Skel::Uacc { .. }
        | Skel::Dacc { .. }
        | Skel::Getchl { .. }
        | Skel::Getchr { .. } => false,
    }
}

// The list that a skeleton makes of its pipe by a map, a filter or the like.
fn built<R: Threads + Sync, G: Gate>(
    rt: &R,
    alloc: Global,
    pipe: &mut Pipe,
    skel: &Skel,
    cut: Cut,
    gate: &G,
) -> Result<List, AllocError>
    requires passes { (gives : Seq Width) × Passes (skeleton_of skel.now).head (skeleton_of skel.now).functions (type_of pipe.old) gives }
    requires small { AreSmall (skeleton_of skel.now).functions }
    requires admitted { All (Admits (type_of pipe.old)) (elements pipe.old) }
    ensures ty { IfOk result (λ x. Passes (skeleton_of skel.now).head (skeleton_of skel.now).functions (type_of pipe.old) x.ty) }
    ensures items { IfOk result (λ x. x.items ≡ passed (skeleton_of skel.now).head (skeleton_of skel.now).functions (elements pipe.old)) }
{
    pass(alloc, pipe, skel)?;
    build(rt, alloc, pipe, cut, gate)
}

/// What a skeleton makes of its pipe, for the name that its line binds.
pub(crate) fn finish<R: Threads + Sync, G: Gate>(
    rt: &R,
    alloc: Global,
    pipe: &mut Pipe,
    bound: &Bound,
    skel: &Skel,
    cut: Cut,
    gate: &G,
) -> Result<Value, AllocError>
    requires finishes { Finishes (skeleton_of skel.now).head (skeleton_of skel.now).functions (skeleton_of skel.now).ops (type_of pipe.old) bound.now.ty }
    requires small { AreSmall (skeleton_of skel.now).functions }
    requires admitted { All (Admits (type_of pipe.old)) (elements pipe.old) }
    ensures { IfOk result (λ v. v ≡ value_finished (binding_of bound.now) (skeleton_of skel.now) (record { ty = type_of pipe.old; items = elements pipe.old })) }
{
    if passes_on(skel) {
        return Ok(Value::List(built(rt, alloc, pipe, skel, cut, gate)?));
    }
    match skel {
        Skel::Reduce {
            op: Fold::Flat(op),
            ..
        } => Ok(Value::Single(bound.ty, reduced(rt, alloc, pipe, *op, cut, gate)?)),
        Skel::Scan { op, .. } => Ok(Value::List(scanned(rt, alloc, pipe, *op, cut, gate)?)),
        Skel::Scanr { op, .. } => Ok(Value::List(scanned_back(rt, alloc, pipe, *op, cut, gate)?)),
        _ => unreachable!(),
    }
}
