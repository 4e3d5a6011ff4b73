//! What skeletons do to pipes.

ghost use Rattle.std.specs.Prelude.{◌≡◌, ◌≤◌, map, OnOk, IfOk, Ok};
ghost use Rattle.std.specs.List.{All, filter};
ghost use Rattle.op_laws.specs.Admits.{Admits};
ghost use Rattle.op_laws.specs.declared.TheConstants.{MAX_ELEMENTS};
ghost use Rattle.op_laws.specs.declared.width.Width.{Width};
ghost use Rattle.scalar_expr.specs.Expr.{nodes_in};
ghost use Rattle.scalar_expr.specs.Typing.{typed};
ghost use Rattle.scalar_expr.specs.Views.{scalars_of};
ghost use Rattle.scalar_expr.specs.Values.{values_of};
ghost use Rattle.list_fusion.specs.Stages.{is_kept};
ghost use Rattle.list_fusion.specs.Pipes.{type_of, elements};
ghost use Rattle.script_lang.specs.Views.{skeleton_of};
ghost use Rattle.script_lang.specs.Sound.{AreSmall};
ghost use Rattle.script_run.specs.Pipes.{passed, Passes, IsTest};
ghost use Rattle.std.specs.Prelude.{List as Seq};

use list_fusion::Pipe;
use op_laws::ElemType;
use scalar_expr::{Func, TypeFault, Typed, typed};
use script_lang::Skel;
use std::alloc::{AllocError, Global};

// A function that has a type, compiled.
fn compiled(alloc: Global, f: &Func, ty: ElemType) -> Result<Typed, AllocError>
    requires few { nodes_in (scalars_of f.now) ≤ MAX_ELEMENTS }
    requires typed { (gives : Seq Width) × (typed ty (scalars_of f.now) ≡ Ok gives) }
    ensures scalars { IfOk result (λ t. t.scalars ≡ scalars_of f.now) }
    ensures takes { IfOk result (λ t. t.takes ≡ ty) }
    ensures gives { IfOk result (λ t. typed ty (scalars_of f.now) ≡ Ok t.gives) }
{
    match typed(alloc, f, ty) {
        Ok(f) => Ok(f),
        Err(TypeFault::Memory) => Err(AllocError),
        Err(_) => unreachable!(),
    }
}

fn add_map(alloc: Global, pipe: &mut Pipe, f: &Func) -> Result<(), AllocError>
    requires few { nodes_in (scalars_of f.now) ≤ MAX_ELEMENTS }
    requires typed { (gives : Seq Width) × (typed (type_of pipe.old) (scalars_of f.now) ≡ Ok gives) }
    requires admitted { All (Admits (type_of pipe.old)) (elements pipe.old) }
    ensures elements { OnOk result (elements pipe.new ≡ map (values_of (scalars_of f.now)) (elements pipe.old)) }
    ensures ty { OnOk result (typed (type_of pipe.old) (scalars_of f.now) ≡ Ok (type_of pipe.new)) }
    ensures admitted { OnOk result (All (Admits (type_of pipe.new)) (elements pipe.new)) }
{
    let f = compiled(alloc, f, pipe.ty())?;
    f.admitted();
    pipe.map(f)
}

fn add_test(alloc: Global, pipe: &mut Pipe, f: &Func) -> Result<(), AllocError>
    requires few { nodes_in (scalars_of f.now) ≤ MAX_ELEMENTS }
    requires typed { IsTest (scalars_of f.now) (type_of pipe.old) }
    requires admitted { All (Admits (type_of pipe.old)) (elements pipe.old) }
    ensures elements { OnOk result (elements pipe.new ≡ filter (is_kept (scalars_of f.now)) (elements pipe.old)) }
    ensures ty { OnOk result (type_of pipe.new ≡ type_of pipe.old) }
    ensures admitted { OnOk result (All (Admits (type_of pipe.new)) (elements pipe.new)) }
{
    let f = compiled(alloc, f, pipe.ty())?;
    pipe.keep(f)
}

/// Does to a pipe what a skeleton does to the list that it takes; `zip` and `iota` are done when it
/// begins.
pub(crate) fn pass(alloc: Global, pipe: &mut Pipe, skel: &Skel) -> Result<(), AllocError>
    requires passes { (gives : Seq Width) × Passes (skeleton_of skel.now).head (skeleton_of skel.now).functions (type_of pipe.old) gives }
    requires small { AreSmall (skeleton_of skel.now).functions }
    requires admitted { All (Admits (type_of pipe.old)) (elements pipe.old) }
    ensures elements { OnOk result (elements pipe.new ≡ passed (skeleton_of skel.now).head (skeleton_of skel.now).functions (elements pipe.old)) }
    ensures ty { OnOk result (Passes (skeleton_of skel.now).head (skeleton_of skel.now).functions (type_of pipe.old) (type_of pipe.new)) }
    ensures admitted { OnOk result (All (Admits (type_of pipe.new)) (elements pipe.new)) }
{
    match skel {
        Skel::Map { f, .. } => add_map(alloc, pipe, f),
        Skel::Filter { f, .. } => add_test(alloc, pipe, f),
        Skel::Rev { .. } => {
            pipe.rev();
            Ok(())
        }
        Skel::Zip { .. } | Skel::Iota { .. } | Skel::Plain { .. } => Ok(()),
        Skel::Mapln { .. }
        | Skel::Reduce { .. }
        | Skel::ReduceBoth { .. }
        | Skel::Scan { .. }
        | Skel::Scanr { .. }
        | Skel::ScanBoth { .. }
        | Skel::Rows { .. }
        | Skel::Cols { .. }
        | Skel::Transpose { .. }
        | Skel::Uacc { .. }
        | Skel::Dacc { .. }
        | Skel::Getchl { .. }
        | Skel::Getchr { .. } => unreachable!(),
    }
}
