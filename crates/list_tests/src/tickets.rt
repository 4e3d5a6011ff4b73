//! What no contract says: that a call succeeds where there is memory, and that several workers take
//! part and draw one by one.
use std::alloc::{AllocError, Global};
use std::hint::spin_loop;
use std::sync::atomic::{AtomicBool, AtomicU64, Ordering};
use std::test::Fail;
use worker_split::{Board, Cut, Gate, OpenGate, Task, run_tasks};

// Each ticket's item is the ticket.
#[derive(Drop)]
struct Own {
    count: u32,
}

impl Task for Own {
    type Out = u32;

    ghost use Rattle.std.specs.Prelude.{◌≡◌};

    ghost gives = { λ _ t item. item ≡ t };

    ghost count = { λ task. task.count };

    fn tickets(&self) -> u32 {
        self.count
    }

    fn run(&self, _alloc: Global, ticket: u32) -> Result<u32, AllocError> {
        Ok(ticket)
    }
}

// Holds the first ticket that comes until all others have passed.
#[derive(Drop)]
struct Holding {
    others: u64,
    held: AtomicBool,
    passed: AtomicU64,
    gave_up: AtomicBool,
}

impl Holding {
    fn hold(&self) {
        for _ in 0..1u32 << 28 {
            if self.passed.load(Ordering::SeqCst) == self.others {
                return;
            }
            spin_loop();
        }
        self.gave_up.store(true, Ordering::SeqCst);
    }
}

impl Gate for Holding {
    fn pass(&self, _ticket: u32) {
        if self.held.swap(true, Ordering::SeqCst) {
            self.passed.fetch_add(1, Ordering::SeqCst);
        } else {
            self.hold();
        }
    }
}

#[test]
fn a_board_of_one_pass_deals_in_order(rt: HostRuntime) -> Result<(), Fail> {
    let (board, mut passes) = Board::make(rt.alloc(), 3, 1)?;
    assert_eq!(rt; passes.len(), 1);
    assert_eq!(rt; board.draw(&mut passes[0]), Some(0));
    assert_eq!(rt; board.draw(&mut passes[0]), Some(1));
    assert_eq!(rt; board.draw(&mut passes[0]), Some(2));
    assert_eq!(rt; board.draw(&mut passes[0]), None);
    assert_eq!(rt; board.draw(&mut passes[0]), None);
    Ok(())
}

#[test]
fn each_ticket_has_its_item_at_its_place(rt: HostRuntime) -> Result<(), Fail> {
    for workers in [1, 2, 64] {
        for count in [0u32, 1, 3, 10_000] {
            let items = run_tasks(&rt, rt.alloc(), workers, &Own { count }, &OpenGate)?;
            assert_eq!(rt; items.len(), count as usize, "with {workers} workers");
            for (item, ticket) in items.iter().zip(0..count) {
                assert_eq!(rt; *item, ticket, "of {count} tickets with {workers} workers");
            }
        }
    }
    Ok(())
}

#[test]
fn another_worker_draws_while_one_is_held(rt: HostRuntime) -> Result<(), Fail> {
    let gate = Holding {
        others: 5,
        held: AtomicBool::new(false),
        passed: AtomicU64::new(0),
        gave_up: AtomicBool::new(false),
    };
    let cut = Cut {
        block: 1,
        workers: 2,
    };
    let items = run_tasks(&rt, rt.alloc(), cut.workers, &Own { count: 6 }, &gate)?;
    assert_eq!(rt; items.as_slice(), [0u32, 1, 2, 3, 4, 5].as_slice());
    assert_eq!(rt; gate.passed.load(Ordering::SeqCst), 5);
    assert!(rt;
        !gate.gave_up.load(Ordering::SeqCst),
        "the other worker drew nothing for 2^28 turns"
    );
    Ok(())
}
