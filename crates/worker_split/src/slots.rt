//! The items of tickets, put into the order of the tickets.
ghost use Rattle.std.specs.Prelude.{◌≡◌, ℕ, ◌<◌, ◌≤◌, length, slice_index_or, IfOk};
ghost use Rattle.worker_split.specs.Dealing.{times};
ghost use Rattle.worker_split.specs.Items.{AllGiven, Within, IsFilledAt, KeepsFilled, tickets_of};

use crate::task::Task;
use std::alloc::{AllocError, Global};

/// A slot for each ticket.
pub fn empty_slots<X: Drop>(alloc: Global, count: u32) -> Result<Vec<Option<X>>, AllocError>
    ensures { IfOk result (λ slots. length slots.items ≡ count) }
{
    let mut slots = Vec::with_capacity(alloc, count as usize)?;
    for _i in 0..count {
        slots.push(None)?;
    }
    Ok(slots)
}

/// Puts each item into the slot of its ticket. The task is only what the contract speaks of.
pub fn place<T: Task<Out = X>, X: Send + Drop>(
    _task: &T,
    items: Vec<(u32, X)>,
    slots: &mut Vec<Option<X>>,
)
    requires items { AllGiven (Within (T.count _task.now) (T.gives _task.now)) items.items }
    requires slots { length slots.old.items ≡ T.count _task.now }
    ensures length { length slots.new.items ≡ length slots.old.items }
    ensures placed { (t : ℕ) → 1 ≤ times t (tickets_of items.items) → IsFilledAt (T.gives _task.now) slots.new.items t }
    ensures kept { KeepsFilled (T.gives _task.now) slots.old.items slots.new.items }
{
    for (ticket, item) in items {
        slots[ticket as usize] = Some(item);
    }
}

/// The items of slots that each have one.
pub fn in_order<T: Task<Out = X>, X: Send + Drop>(
    alloc: Global,
    _task: &T,
    slots: Vec<Option<X>>,
) -> Result<Vec<X>, AllocError>
    requires { (t : ℕ) → t < length slots.items → IsFilledAt (T.gives _task.now) slots.items t }
    ensures count { IfOk result (λ v. length v.items ≡ length slots.items) }
    ensures each { IfOk result (λ v. (t : ℕ) (x : X) → t < length slots.items → T.gives _task.now t (slice_index_or v.items t x)) }
{
    let mut items = Vec::with_capacity(alloc, slots.len())?;
    for slot in slots {
        match slot {
            Some(item) => items.push(item)?,
            None => unreachable!(),
        }
    }
    Ok(items)
}
