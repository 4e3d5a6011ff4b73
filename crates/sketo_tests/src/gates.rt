//! How work is cut and drawn, which no clause says: which tickets pass, and that another worker draws
//! while one is held.
use crate::runs::{assert_end, files, lines_of, run_through, words};
use outside::{Failed, Sink, SureShelf};
use sketo_run::sketo;
use std::alloc::{AllocError, Global};
use std::hint::spin_loop;
use std::sync::atomic::{AtomicBool, AtomicU64, Ordering};
use std::test::Fail;
use worker_split::Gate;

// Counts how often each of the first six tickets passes, and all others together.
#[derive(Drop)]
struct Noting {
    first: AtomicU64,
    second: AtomicU64,
    third: AtomicU64,
    others: AtomicU64,
}

impl Noting {
    fn new() -> Noting {
        Noting {
            first: AtomicU64::new(0),
            second: AtomicU64::new(0),
            third: AtomicU64::new(0),
            others: AtomicU64::new(0),
        }
    }

    fn counts(&self) -> [u64; 4] {
        [
            self.first.load(Ordering::SeqCst),
            self.second.load(Ordering::SeqCst),
            self.third.load(Ordering::SeqCst),
            self.others.load(Ordering::SeqCst),
        ]
    }
}

impl Gate for Noting {
    fn pass(&self, ticket: u32) {
        let _before = match ticket {
            0 => self.first.fetch_add(1, Ordering::SeqCst),
            1 => self.second.fetch_add(1, Ordering::SeqCst),
            2 => self.third.fetch_add(1, Ordering::SeqCst),
            _ => self.others.fetch_add(1, Ordering::SeqCst),
        };
    }
}

const SIX: &str = "x list 6 1 2 3 4 5 6";

const BY_TWO: &str = "run s d --block 2";

// Scripts, what they print of six numbers, and how often each block of two passes in the whole run.
const TICKETS: &str = "\
input x list / let r = reduce add x / print r => r value 21 => 1
input x list / let r = scan add x / print r => r list 6 1 3 6 10 15 21 => 2
input x list / let r = scanr add x / print r => r list 6 21 20 18 15 11 6 => 2
input x list / let r = map (* #0 #0) x / print r => r list 6 1 4 9 16 25 36 => 1
input x list / let e = filter (= (and #0 1) 0) x / let s = map (* #0 #0) e / let r = reduce add s / print r => r value 56 => 1
input x list / let i = iota x / let e = rev i / let r = scan add e / print r => r list 6 5 9 12 14 15 15 => 2
input x list / let y = rev x / let z = zip x y / let m = map (* #0 #1) z / let r = reduce add m / print r => r value 56 => 2
input x list / let y = map (* #0 #0) x / print x => x list 6 1 2 3 4 5 6 => 0";

#[test]
fn each_block_is_a_ticket_and_fused_lists_take_none(rt: HostRuntime) -> Result<(), Fail> {
    let alloc = rt.alloc();
    let mut rows = 0u64;
    for row in TICKETS.lines() {
        let Some((script, rest)) = row.split_once(" => ") else {
            continue;
        };
        let Some((out, times)) = rest.split_once(" => ") else {
            continue;
        };
        rows = rows.saturating_add(1);
        let gate = Noting::new();
        let (script, out) = (lines_of(alloc, script)?, lines_of(alloc, out)?);
        let end = run_through(&rt, BY_TWO, Some(script.as_str()), Some(SIX), &gate)?;
        assert_end(&rt, &end, 0, out.as_str(), "", row);
        let times = times.parse::<u64>()?;
        assert_eq!(rt; gate.counts(), [times, times, times, 0], "{row}");
    }
    assert_eq!(rt; rows, 8);
    Ok(())
}

// Holds the first ticket that comes until the five others have passed.
#[derive(Drop)]
struct Holding {
    held: AtomicBool,
    gave_up: AtomicBool,
    passed: AtomicU64,
    tickets: AtomicU64,
}

impl Holding {
    fn hold(&self) {
        for _ in 0..1u32 << 28 {
            if self.passed.load(Ordering::SeqCst) == 5 {
                return;
            }
            spin_loop();
        }
        self.gave_up.store(true, Ordering::SeqCst);
    }
}

impl Gate for Holding {
    fn pass(&self, ticket: u32) {
        let _before = self
            .tickets
            .fetch_add(1u64 << (4 * ticket.min(15)), Ordering::SeqCst);
        if self.held.swap(true, Ordering::SeqCst) {
            self.passed.fetch_add(1, Ordering::SeqCst);
        } else {
            self.hold();
        }
    }
}

#[test]
fn another_worker_draws_while_one_is_held(rt: HostRuntime) -> Result<(), Fail> {
    let gate = Holding {
        held: AtomicBool::new(false),
        gave_up: AtomicBool::new(false),
        passed: AtomicU64::new(0),
        tickets: AtomicU64::new(0),
    };
    let end = run_through(
        &rt,
        "run s d --block 1 --workers 2",
        Some("input x list\nlet r = reduce mss x\nprint r\n"),
        Some("x list 6 3 -4 2 -1 6 -3"),
        &gate,
    )?;
    assert_end(&rt, &end, 0, "r value 7\n", "", "a held ticket");
    assert!(rt;
        !gate.gave_up.load(Ordering::SeqCst),
        "the other worker drew nothing for 2^28 turns"
    );
    assert_eq!(rt;
        gate.tickets.load(Ordering::SeqCst),
        0x11_1111,
        "tickets 0 to 5, each once"
    );
    Ok(())
}

// Output that counts what is put.
#[derive(Drop)]
struct Counted<'a> {
    puts: &'a AtomicU64,
}

impl Sink for Counted<'_> {
    ghost use Rattle.std.specs.Prelude.{None};

    ghost written = { λ _. None };

    ghost faults = { λ _. 0 };

    fn put(&mut self, _bytes: &[u8]) -> Result<(), Failed> {
        self.puts.fetch_add(1, Ordering::SeqCst);
        Ok(())
    }
}

// Notes whether something was put before a ticket passes, and how many pass.
#[derive(Drop)]
struct Watching<'a> {
    puts: &'a AtomicU64,
    early: AtomicBool,
    tickets: AtomicU64,
}

impl Gate for Watching<'_> {
    fn pass(&self, _ticket: u32) {
        self.tickets.fetch_add(1, Ordering::SeqCst);
        if self.puts.load(Ordering::SeqCst) > 0 {
            self.early.store(true, Ordering::SeqCst);
        }
    }
}

// A list of so many numbers 7, more than a piece of output has room for.
fn many_sevens(alloc: Global, count: u32) -> Result<String, AllocError> {
    let mut text = format!(in alloc; "x list {count}")?;
    for _ in 0..count {
        text.push_str(" 7")?;
    }
    Ok(text)
}

#[test]
fn nothing_is_printed_before_all_is_computed(rt: HostRuntime) -> Result<(), Fail> {
    let alloc = rt.alloc();
    let script = lines_of(
        alloc,
        "input x list / let m = map (+ #0 1) x / print x / print m / let r = reduce add x / print r",
    )?;
    let text = many_sevens(alloc, 3000)?;
    let puts = AtomicU64::new(0);
    let gate = Watching {
        puts: &puts,
        early: AtomicBool::new(false),
        tickets: AtomicU64::new(0),
    };
    let mut shelf = SureShelf::new(
        alloc,
        files(alloc, Some(script.as_str()), Some(text.as_str()))?,
    );
    let (mut out, mut err) = (Counted { puts: &puts }, Counted { puts: &puts });
    let words = words(alloc, "run s d --block 1000")?;
    let status = sketo(&rt, alloc, &words, &mut shelf, &mut out, &mut err, &gate);
    assert_eq!(rt; status, 0);
    assert_eq!(rt; gate.tickets.load(Ordering::SeqCst), 6);
    assert!(rt;
        !gate.early.load(Ordering::SeqCst),
        "printed before the last value"
    );
    assert!(rt;
        puts.load(Ordering::SeqCst) >= 3,
        "the text has more than two pieces"
    );
    Ok(())
}
