//! What no clause says: that calls succeed where there is memory, with values from outside, for
//! blocks of every size and any number of workers; and how often the gate is passed.

ghost use Rattle.std.specs.Prelude.{◌≡◌, ◌≤◌, IfOk};
ghost use Rattle.scalar_expr.specs.Expr.{nodes};
ghost use Rattle.scalar_expr.specs.Views.{expr_of};

use list_fusion::{Head, Pipe};
use list_skel::{Cut, build, reduce, scan, scanr};
use op_catalog::{Affine, Last, Mss, Sum};
use op_laws::{ElemType, Lifted, List, Monoid, Semi, Tup, Width};
use scalar_expr::{Func, Scalar, typed};
use std::alloc::{AllocError, Global};
use std::process::Abort;
use std::sync::atomic::{AtomicU64, Ordering};
use std::test::Fail;
use std::thread::Threads;
use worker_split::{Gate, OpenGate};

// (* #0 #0)
fn square(alloc: Global) -> Result<Scalar, AllocError>
    ensures { IfOk result (λ s. nodes (expr_of s) ≤ 8) }
{
    Ok(Scalar::Mul(part(alloc)?, part(alloc)?))
}

// (= (and #0 1) 0)
fn even(alloc: Global) -> Result<Scalar, AllocError>
    ensures { IfOk result (λ s. nodes (expr_of s) ≤ 8) }
{
    let low = Box::new(alloc, Scalar::And(part(alloc)?, literal(alloc, 1)?))?;
    Ok(Scalar::Same(low, literal(alloc, 0)?))
}

fn part(alloc: Global) -> Result<Box<Scalar>, AllocError>
    ensures { IfOk result (λ s. nodes (expr_of s.value) ≡ 1) }
{
    Ok(Box::new(alloc, Scalar::Part(0))?)
}

fn literal(alloc: Global, n: i64) -> Result<Box<Scalar>, AllocError>
    ensures { IfOk result (λ s. nodes (expr_of s.value) ≡ 1) }
{
    Ok(Box::new(alloc, Scalar::Lit(n))?)
}

fn list_of(rt: &impl Abort, alloc: Global, numbers: &[i64]) -> Result<List, AllocError> {
    assert!(rt; numbers.len() < 100);
    Ok(List::of_w64(Vec::from_slice(alloc, numbers)?))
}

fn side_by_side<'a>(rt: &impl Abort, alloc: Global, x: &'a List, y: &'a List) -> Pipe<'a> {
    assert_eq!(rt; x.len(), y.len());
    assert!(rt; x.ty().len() + y.ty().len() <= 4);
    Pipe::of(alloc, Head::Two(x, y))
}

fn check_list(rt: &impl Abort, list: &List, numbers: &[i128], cut: Cut) {
    assert_eq!(rt; list.len() as usize, numbers.len(), "{cut:?}");
    for i in 0..list.len() {
        assert_eq!(rt; list.at(i), Tup::one(numbers[i as usize]), "{cut:?}");
    }
}

fn check_reduce<R: Abort + Threads + Sync, M: Monoid + Sync>(
    rt: &R,
    alloc: Global,
    pipe: &Pipe,
    op: &M,
    value: Tup,
) -> Result<(), AllocError>
where
    M::C: Send + Sync,
{
    assert!(rt; op.accepts(pipe.ty()));
    for block in [1, 2, 3, 100] {
        for workers in [1, 2, 64] {
            let cut = Cut { block, workers };
            assert_eq!(rt;
                reduce(rt, alloc, pipe, op, cut, &OpenGate)?,
                value,
                "{cut:?}"
            );
        }
    }
    Ok(())
}

fn check_scans<R: Abort + Threads + Sync, M: Semi + Sync>(
    rt: &R,
    alloc: Global,
    pipe: &Pipe,
    op: &M,
    up_to: &[i128],
    from_on: &[i128],
) -> Result<(), AllocError>
where
    M::C: Send + Sync,
{
    assert!(rt; op.accepts(pipe.ty()));
    for block in [1, 2, 3, 100] {
        for workers in [1, 2, 64] {
            let cut = Cut { block, workers };
            check_list(rt, &scan(rt, alloc, pipe, op, cut, &OpenGate)?, up_to, cut);
            check_list(
                rt,
                &scanr(rt, alloc, pipe, op, cut, &OpenGate)?,
                from_on,
                cut,
            );
        }
    }
    Ok(())
}

fn check_build<R: Abort + Threads + Sync>(
    rt: &R,
    alloc: Global,
    pipe: &Pipe,
    numbers: &[i128],
) -> Result<(), AllocError> {
    for block in [1, 2, 3, 100] {
        for workers in [1, 2, 64] {
            let cut = Cut { block, workers };
            check_list(rt, &build(rt, alloc, pipe, cut, &OpenGate)?, numbers, cut);
        }
    }
    Ok(())
}

#[test]
fn lists_are_scanned_from_the_front_and_from_behind(rt: HostRuntime) -> Result<(), Fail> {
    let alloc = rt.alloc();
    let x = list_of(&rt, alloc, &[1, 2, 3])?;
    let pipe = Pipe::of(alloc, Head::One(&x));
    check_scans(&rt, alloc, &pipe, &Sum::<64>::new(), &[1, 3, 6], &[6, 5, 3])?;
    let one = Cut {
        block: 2,
        workers: 2,
    };
    assert!(rt; Sum::<64>::new().accepts(pipe.ty()));
    let sums = scan(&rt, alloc, &pipe, &Sum::<64>::new(), one, &OpenGate)?;
    let pipe = Pipe::of(alloc, Head::One(&sums));
    check_scans(
        &rt,
        alloc,
        &pipe,
        &Sum::<96>::new(),
        &[1, 4, 10],
        &[10, 9, 6],
    )?;
    Ok(())
}

#[test]
fn the_order_of_elements_counts(rt: HostRuntime) -> Result<(), Fail> {
    let alloc = rt.alloc();
    let a = list_of(&rt, alloc, &[2, 3, 1])?;
    let b = list_of(&rt, alloc, &[1, 0, 5])?;
    let mut pipe = side_by_side(&rt, alloc, &a, &b);
    check_reduce(&rt, alloc, &pipe, &Affine::new(), Tup::two(6, 8))?;
    pipe.rev();
    check_reduce(&rt, alloc, &pipe, &Affine::new(), Tup::two(6, 31))?;
    let x = list_of(&rt, alloc, &[3, -4, 2, -1, 6, -3])?;
    let pipe = Pipe::of(alloc, Head::One(&x));
    check_reduce(&rt, alloc, &pipe, &Mss::<64>::new(), Tup::one(7))?;
    let last = Last::new(pipe.ty());
    check_scans(
        &rt,
        alloc,
        &pipe,
        &last,
        &[3, -4, 2, -1, 6, -3],
        &[-3, -3, -3, -3, -3, -3],
    )?;
    Ok(())
}

#[test]
fn filters_and_maps_go_before(rt: HostRuntime) -> Result<(), Fail> {
    let alloc = rt.alloc();
    let x = list_of(&rt, alloc, &[1, 2, 3, 4, 5, 6])?;
    let mut pipe = Pipe::of(alloc, Head::One(&x));
    let w64 = ElemType::one(Width::W64);
    let keeps = typed(alloc, &Func::One(even(alloc)?), w64)?;
    let maps = typed(alloc, &Func::One(square(alloc)?), w64)?;
    assert_eq!(rt; keeps.takes(), pipe.ty());
    assert_eq!(rt; keeps.gives().len(), 1);
    pipe.keep(keeps)?;
    assert_eq!(rt; maps.takes(), pipe.ty());
    pipe.map(maps)?;
    check_reduce(&rt, alloc, &pipe, &Sum::<64>::new(), Tup::one(56))?;
    check_scans(
        &rt,
        alloc,
        &pipe,
        &Sum::<64>::new(),
        &[4, 20, 56],
        &[56, 52, 36],
    )?;
    check_build(&rt, alloc, &pipe, &[4, 16, 36])?;
    pipe.rev();
    check_scans(
        &rt,
        alloc,
        &pipe,
        &Sum::<64>::new(),
        &[36, 52, 56],
        &[56, 20, 4],
    )?;
    check_build(&rt, alloc, &pipe, &[36, 16, 4])?;
    Ok(())
}

#[test]
fn nothing_may_be_left(rt: HostRuntime) -> Result<(), Fail> {
    let alloc = rt.alloc();
    let none = list_of(&rt, alloc, &[])?;
    let empty = Pipe::of(alloc, Head::One(&none));
    check_reduce(&rt, alloc, &empty, &Sum::<64>::new(), Tup::one(0))?;
    check_scans(&rt, alloc, &empty, &Sum::<64>::new(), &[], &[])?;
    check_build(&rt, alloc, &empty, &[])?;
    let odd = list_of(&rt, alloc, &[1, 3, 5, 7])?;
    let mut pipe = Pipe::of(alloc, Head::One(&odd));
    let w64 = ElemType::one(Width::W64);
    let keeps = typed(alloc, &Func::One(even(alloc)?), w64)?;
    assert_eq!(rt; keeps.takes(), pipe.ty());
    assert_eq!(rt; keeps.gives().len(), 1);
    pipe.keep(keeps)?;
    check_reduce(&rt, alloc, &pipe, &Sum::<64>::new(), Tup::one(0))?;
    check_scans(&rt, alloc, &pipe, &Sum::<64>::new(), &[], &[])?;
    check_build(&rt, alloc, &pipe, &[])?;
    Ok(())
}

// Counts how often each of the first tickets passes, and all others together.
#[derive(Drop)]
struct Noting {
    first: AtomicU64,
    second: AtomicU64,
    third: AtomicU64,
    others: AtomicU64,
}

impl Noting {
    fn new() -> Noting {
        Noting {
            first: AtomicU64::new(0),
            second: AtomicU64::new(0),
            third: AtomicU64::new(0),
            others: AtomicU64::new(0),
        }
    }

    fn counts(&self) -> [u64; 4] {
        [
            self.first.load(Ordering::SeqCst),
            self.second.load(Ordering::SeqCst),
            self.third.load(Ordering::SeqCst),
            self.others.load(Ordering::SeqCst),
        ]
    }
}

impl Gate for Noting {
    fn pass(&self, ticket: u32) {
        let _before = match ticket {
            0 => self.first.fetch_add(1, Ordering::SeqCst),
            1 => self.second.fetch_add(1, Ordering::SeqCst),
            2 => self.third.fetch_add(1, Ordering::SeqCst),
            _ => self.others.fetch_add(1, Ordering::SeqCst),
        };
    }
}

#[test]
fn each_block_is_a_ticket_and_scans_take_two_rounds(rt: HostRuntime) -> Result<(), Fail> {
    let alloc = rt.alloc();
    let x = list_of(&rt, alloc, &[1, 2, 3, 4, 5, 6])?;
    let pipe = Pipe::of(alloc, Head::One(&x));
    let add = Sum::<64>::new();
    assert!(rt; add.accepts(pipe.ty()));
    let cut = Cut {
        block: 2,
        workers: 2,
    };
    let gate = Noting::new();
    reduce(&rt, alloc, &pipe, &add, cut, &gate)?;
    assert_eq!(rt; gate.counts(), [1, 1, 1, 0]);
    build(&rt, alloc, &pipe, cut, &gate)?;
    assert_eq!(rt; gate.counts(), [2, 2, 2, 0]);
    scan(&rt, alloc, &pipe, &add, cut, &gate)?;
    assert_eq!(rt; gate.counts(), [4, 4, 4, 0]);
    scanr(&rt, alloc, &pipe, &add, cut, &gate)?;
    assert_eq!(rt; gate.counts(), [6, 6, 6, 0]);
    Ok(())
}
