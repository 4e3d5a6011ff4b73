//! What the pipe of a step begins with.

ghost use Rattle.std.specs.Prelude.{◌≡◌, ◌∷◌, [], map};
ghost use Rattle.std.specs.List.{All};
ghost use Rattle.op_laws.specs.Admits.{Admits};
ghost use Rattle.script_lang.specs.declared.head.Head.TheVariants as head;
ghost use Rattle.script_lang.specs.Views.{skeleton_of};
ghost use Rattle.fuse_rewrite.specs.Meaning.{list_at};
ghost use Rattle.script_run.specs.Pipes.{IsListAt, AreListsAt, ArePaired, IsPipeOf, entered, entered_on};

use data_text::Value;
use list_fusion::{Head, Pipe};
use op_laws::List;
use script_lang::Skel;
use std::alloc::Global;

// The list that the name of a line stands for.
fn list_at<'a>(table: &'a [Option<Value>], n: u32) -> &'a List
    requires { IsListAt table.now n }
    ensures value { result.now ≡ list_at table.now n }
    ensures admitted { All (Admits result.now.ty) result.now.items }
{
    match &table[n as usize] {
        Some(Value::List(list)) => {
            list.admitted();
            list
        }
        _ => unreachable!(),
    }
}

// One list as it is.
fn of_one<'a>(alloc: Global, table: &'a [Option<Value>], x: u32) -> Pipe<'a>
    requires { IsListAt table.now x }
    ensures { IsPipeOf result (list_at table.now x) }
{
    Pipe::of(alloc, Head::One(list_at(table, x)))
}

// Two lists side by side.
fn of_two<'a>(alloc: Global, table: &'a [Option<Value>], x: u32, y: u32) -> Pipe<'a>
    requires first { IsListAt table.now x }
    requires second { IsListAt table.now y }
    requires paired { ArePaired head.Zip table.now (x ∷ y ∷ []) }
    ensures { IsPipeOf result (entered head.Zip (list_at table.now x) (list_at table.now y ∷ [])) }
{
    Pipe::of(alloc, Head::Two(list_at(table, x), list_at(table, y)))
}

// The numbers of a list's places.
fn of_places<'a>(alloc: Global, table: &'a [Option<Value>], x: u32) -> Pipe<'a>
    requires { IsListAt table.now x }
    ensures { IsPipeOf result (entered head.Iota (list_at table.now x) []) }
{
    Pipe::of(alloc, Head::Iota(list_at(table, x).len()))
}

/// What the pipe of a skeleton's arguments begins with. It takes no memory.
pub(crate) fn pipe_of<'a>(alloc: Global, table: &'a [Option<Value>], skel: &Skel) -> Pipe<'a>
    requires lists { AreListsAt table.now (skeleton_of skel.now).arguments }
    requires paired { ArePaired (skeleton_of skel.now).head table.now (skeleton_of skel.now).arguments }
    ensures { IsPipeOf result (entered_on (skeleton_of skel.now).head (map (list_at table.now) (skeleton_of skel.now).arguments)) }
{
    match skel {
        Skel::Zip { x, y } => of_two(alloc, table, *x, *y),
        Skel::Iota { x } => of_places(alloc, table, *x),
        Skel::Map { x, .. }
        | Skel::Mapln { x, .. }
        | Skel::Filter { x, .. }
        | Skel::Rev { x }
        | Skel::Plain { x }
        | Skel::Reduce { x, .. }
        | Skel::ReduceBoth { x, .. }
        | Skel::Scan { x, .. }
        | Skel::Scanr { x, .. }
        | Skel::ScanBoth { x, .. }
        | Skel::Rows { x, .. }
        | Skel::Cols { x, .. }
        | Skel::Transpose { x }
        | Skel::Uacc { x, .. }
        | Skel::Dacc { x, .. }
        | Skel::Getchl { x, .. }
        | Skel::Getchr { x, .. } => of_one(alloc, table, *x),
    }
}
