//! Workers that draw tickets and run a task at each.
ghost use Rattle.std.specs.Prelude.{◌≡◌, ℕ, ◌<◌, ◌≤◌, max, min, map, length, slice_index_or, IfOk, OnOk, IsOk};
ghost use Rattle.std.specs.List.{range_with_len};
ghost use Rattle.std.specs.Thread.{IsSync, IsSend};
ghost use Rattle.worker_split.specs.declared.board.TheConstants.{MAX_WORKERS};
ghost use Rattle.worker_split.specs.Crew.{AllFilled, AllFinished, AllIdle, IsFinished, IsIdle, passes_of};
ghost use Rattle.worker_split.specs.Items.{IsFilledAt, IsDetermined, Within};
ghost use Rattle.worker_split.specs.Passes.{ArePassesOf, tickets_at};

use crate::board::{Board, Pass};
use crate::gate::Gate;
use crate::slots::{empty_slots, in_order, place};
use crate::task::Task;
use std::alloc::{AllocError, Global};
use std::thread::{Threads, join_mut};

/// A worker's pass, and an item for each ticket that it drew.
#[derive(Drop)]
pub struct Worker<X> {
    pub pass: Pass,
    pub items: Vec<(u32, X)>,
}

/// An item for each ticket, in the order of the tickets, as up to so many workers make them.
///
/// There are no more workers than tickets, and at least one. Each but one gets a thread of its own,
/// where one can be made, and the caller's thread runs the rest, so one ticket starts none. A
/// worker draws a ticket, passes the gate with it and runs the task at it, until no ticket is left.
/// The only error is want of memory; what was made is dropped then.
///
/// Takes a step on one shared word for each ticket and each worker, and moves each item three times:
/// into its worker's list, into its ticket's slot and into the answer.
pub fn run_tasks<R: Threads + Sync, T: Task, G: Gate>(
    rt: &R,
    alloc: Global,
    workers: u32,
    task: &T,
    gate: &G,
) -> Result<Vec<T::Out>, AllocError>
    requires some { 1 ≤ workers }
    requires few { workers ≤ MAX_WORKERS }
    ensures count { IfOk result (λ v. length v.items ≡ T.count task.now) }
    ensures each { IfOk result (λ v. (t : ℕ) (x : T.Out) → t < T.count task.now → T.gives task.now t (slice_index_or v.items t x)) }
    // Where each ticket has one item only, the answer is the list that one thread would make.
    ensures determined { (f : ℕ → T.Out) → IsDetermined (T.count task.now) (T.gives task.now) f → IfOk result (λ v. v.items ≡ map f (range_with_len 0 (T.count task.now))) }
{
    let tickets = task.tickets();
    let (board, mut crew) = idle_crew(alloc, workers, tickets)?;
    run_workers(rt, alloc, &board, task, gate, crew.as_mut_slice())?;
    let mut slots = empty_slots(alloc, tickets)?;
    let passes = gather(alloc, task, crew, &mut slots)?;
    board.close(passes);
    in_order(alloc, task, slots)
}

// A board of so many tickets, and an idle worker for each of its passes: as many as asked, but no
// more than there are tickets, and at least one.
fn idle_crew<X: Drop>(
    alloc: Global,
    asked: u32,
    tickets: u32,
) -> Result<(Board, Vec<Worker<X>>), AllocError>
    requires some { 1 ≤ asked }
    requires few { asked ≤ MAX_WORKERS }
    ensures tickets { IfOk result (λ r. r.0.n ≡ tickets) }
    ensures size { IfOk result (λ r. r.0.passes ≡ max 1 (min asked tickets)) }
    ensures passes { IfOk result (λ r. ArePassesOf r.0 (passes_of r.1.items)) }
    ensures idle { IfOk result (λ r. AllIdle r.0 r.1.items) }
{
    let (board, passes) = Board::make(alloc, tickets, asked.min(tickets).max(1))?;
    let crew = crew_of(alloc, passes)?;
    Ok((board, crew))
}

// A worker for each pass.
fn crew_of<X: Drop>(alloc: Global, passes: Vec<Pass>) -> Result<Vec<Worker<X>>, AllocError>
    ensures { IfOk result (λ crew. passes_of crew.items ≡ passes.items) }
{
    let mut crew = Vec::with_capacity(alloc, passes.len())?;
    for pass in passes {
        let items = Vec::new(alloc);
        crew.push(Worker { pass, items })?;
    }
    Ok(crew)
}

// Runs each of the workers, the two halves of them side by side.
#[cycle(halves)]
fn run_workers<R: Threads + Sync, T: Task<Out = X>, G: Gate, X: Send + Drop>(
    rt: &R,
    alloc: Global,
    board: &Board,
    task: &T,
    gate: &G,
    workers: &mut [Worker<X>],
) -> Result<(), AllocError>
    requires size { board.now.n ≡ T.count task.now }
    requires idle { AllIdle board.now workers.old }
    ensures { OnOk result (AllFinished (Within (T.count task.now) (T.gives task.now)) board.now workers.old workers.new) }
{
    if workers.len() == 0 {
        return Ok(());
    }
    if workers.len() == 1 {
        return work(alloc, board, task, gate, &mut workers[0]);
    }
    let (front, back) = workers.split_at_mut(workers.len() / 2);
    both_halves(rt, alloc, board, task, gate, front, back)
}

// Apart from `run_workers`, so that what the closures require is what this function is given.
#[cycle(halves)]
fn both_halves<R: Threads + Sync, T: Task<Out = X>, G: Gate, X: Send + Drop>(
    rt: &R,
    alloc: Global,
    board: &Board,
    task: &T,
    gate: &G,
    front: &mut [Worker<X>],
    back: &mut [Worker<X>],
) -> Result<(), AllocError>
    requires some { (0 < length front.old) × (0 < length back.old) }
    requires size { board.now.n ≡ T.count task.now }
    requires front { AllIdle board.now front.old }
    requires back { AllIdle board.now back.old }
    ensures { OnOk result (AllFinished (Within (T.count task.now) (T.gives task.now)) board.now front.old front.new × AllFinished (Within (T.count task.now) (T.gives task.now)) board.now back.old back.new) }
{
    let mut first = || -> Result<(), AllocError>
        requires { IsSync R.row × IsSync T.row × IsSync G.row × IsSend X.row × (board.now.n ≡ T.count task.now) × AllIdle board.now front.now }
        ensures { OnOk result (AllFinished (Within (T.count task.entry.now) (T.gives task.entry.now)) board.entry.now front.entry.now front.exit.now) }
    { run_workers(rt, alloc, board, task, gate, front) };
    let mut second = || -> Result<(), AllocError>
        requires { IsSync R.row × IsSync T.row × IsSync G.row × IsSend X.row × (board.now.n ≡ T.count task.now) × AllIdle board.now back.now }
        ensures { OnOk result (AllFinished (Within (T.count task.entry.now) (T.gives task.entry.now)) board.entry.now back.entry.now back.exit.now) }
    { run_workers(rt, alloc, board, task, gate, back) };
    let (a, b) = join_mut(rt, &mut first, &mut second);
    both(a, b)
}

fn both(a: Result<(), AllocError>, b: Result<(), AllocError>) -> Result<(), AllocError>
    ensures { OnOk result (IsOk a × IsOk b) }
{
    a?;
    b
}

// Draws tickets and runs the task at each, until none is left. The items are kept in this thread's
// own list meanwhile, since the workers lie side by side in memory.
fn work<T: Task, G: Gate>(
    alloc: Global,
    board: &Board,
    task: &T,
    gate: &G,
    worker: &mut Worker<T::Out>,
) -> Result<(), AllocError>
    requires size { board.now.n ≡ T.count task.now }
    requires idle { IsIdle board.now worker.old }
    ensures done { OnOk result (IsFinished (Within (T.count task.now) (T.gives task.now)) board.now worker.new) }
    ensures number { worker.new.pass.number ≡ worker.old.pass.number }
{
    let mut items = Vec::with_capacity(alloc, board.share())?;
    while let Some(ticket) = board.draw(&mut worker.pass) {
        gate.pass(ticket);
        let item = task.run(alloc, ticket)?;
        items.push((ticket, item))?;
    }
    worker.items = items;
    Ok(())
}

// Takes the workers apart: their items go into the slots, and their passes come back.
fn gather<T: Task<Out = X>, X: Send + Drop>(
    alloc: Global,
    task: &T,
    crew: Vec<Worker<X>>,
    slots: &mut Vec<Option<X>>,
) -> Result<Vec<Pass>, AllocError>
    requires filled { AllFilled (Within (T.count task.now) (T.gives task.now)) crew.items }
    requires slots { length slots.old.items ≡ T.count task.now }
    ensures slots { length slots.new.items ≡ length slots.old.items }
    ensures passes { IfOk result (λ v. v.items ≡ passes_of crew.items) }
    ensures placed { IfOk result (λ v. (t : ℕ) → 1 ≤ tickets_at t (passes_of crew.items) → IsFilledAt (T.gives task.now) slots.new.items t) }
{
    let mut passes = Vec::with_capacity(alloc, crew.len())?;
    for worker in crew {
        let Worker { pass, items } = worker;
        place(task, items, slots);
        passes.push(pass)?;
    }
    Ok(passes)
}
