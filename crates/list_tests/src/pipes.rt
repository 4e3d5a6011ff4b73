//! What no clause says: that calls succeed where there is memory, and that pipes give lists worked
//! out apart from this crate.

ghost use Rattle.std.specs.Prelude.{◌≡◌, ◌≤◌, [], ◌∷◌, IfOk, refl};
ghost use Rattle.std.proofs.Math.Path.{subst};
ghost use Rattle.op_laws.specs.declared.width.Width.TheVariants.{W64};
ghost use Rattle.op_laws.specs.Admits.{Admits};
ghost use Rattle.scalar_expr.specs.Expr.{nodes};
ghost use Rattle.scalar_expr.specs.Views.{expr_of};

use list_fusion::{Head, Pipe, build_block, fold_block, scan_block};
use op_laws::{ElemType, Lifted, List, Semi, Tup, Width};
use scalar_expr::{Func, Scalar, typed};
use std::alloc::{AllocError, Global};
use std::process::Abort;
use std::test::Fail;

// (* #0 #0)
fn square(alloc: Global) -> Result<Scalar, AllocError>
    ensures { IfOk result (λ s. nodes (expr_of s) ≤ 8) }
{
    Ok(Scalar::Mul(part(alloc)?, part(alloc)?))
}

// (and #0 1), which is 0 on even numbers
fn odd(alloc: Global) -> Result<Scalar, AllocError>
    ensures { IfOk result (λ s. nodes (expr_of s) ≤ 8) }
{
    Ok(Scalar::And(part(alloc)?, literal(alloc, 1)?))
}

// (* #0 #1)
fn product(alloc: Global) -> Result<Scalar, AllocError>
    ensures { IfOk result (λ s. nodes (expr_of s) ≤ 8) }
{
    Ok(Scalar::Mul(part(alloc)?, Box::new(alloc, Scalar::Part(1))?))
}

fn part(alloc: Global) -> Result<Box<Scalar>, AllocError>
    ensures { IfOk result (λ s. nodes (expr_of s.value) ≡ 1) }
{
    Ok(Box::new(alloc, Scalar::Part(0))?)
}

fn literal(alloc: Global, n: i64) -> Result<Box<Scalar>, AllocError>
    ensures { IfOk result (λ s. nodes (expr_of s.value) ≡ 1) }
{
    Ok(Box::new(alloc, Scalar::Lit(n))?)
}

fn list_of(rt: &impl Abort, alloc: Global, numbers: &[i64]) -> Result<List, AllocError> {
    assert!(rt; numbers.len() < 100);
    Ok(List::of_w64(Vec::from_slice(alloc, numbers)?))
}

fn side_by_side<'a>(rt: &impl Abort, alloc: Global, x: &'a List, y: &'a List) -> Pipe<'a> {
    assert_eq!(rt; x.len(), y.len());
    assert!(rt; x.ty().len() + y.ty().len() <= 4);
    Pipe::of(alloc, Head::Two(x, y))
}

// The last of numbers of w64. What its folds and scans come to can be read off the list.
#[derive(Clone, Copy, Debug)]
struct Last;

impl Lifted for Last {
    type C = Tup;

    ghost takes = { λ _ ty. ty ≡ W64 ∷ [] };

    ghost gives = { λ _ _. W64 ∷ [] };

    ghost lifted = { λ _ e. e };

    ghost finished = { λ _ c. c };

    ghost fits = { λ _ c _. Admits (W64 ∷ []) c };

    fn accepts(&self, ty: ElemType) -> bool {
        ty == ElemType::one(Width::W64)
    }

    fn result(&self, _ty: ElemType) -> ElemType {
        ElemType::one(Width::W64)
    }

    fn lift(&self, e: Tup) -> Tup {
        e
    }

    fn finish(&self, c: Tup, _n: u32) -> Tup {
        c
    }

    ghost lift_laws = { λ _. record {
      grows = λ c m n le f. f;
      lifted_fits = λ ty e taken admitted. subst (λ t. Admits t e) taken admitted;
      finished_admitted = λ ty c n taken few f. f;
    } };
}

impl Semi for Last {
    ghost combined = { λ _ a b. b };

    fn combine(&self, _a: Tup, _na: u32, b: Tup, _nb: u32) -> Tup {
        b
    }

    ghost combine_laws = { λ _. record {
      combined_fits = λ a m b n few fa fb. fb;
      associative = λ a l b m c n few fa fb fc. refl;
    } };
}

// The block's elements are of one number each, and these are the numbers.
fn check_block(
    rt: &impl Abort,
    alloc: Global,
    pipe: &Pipe,
    from: u32,
    to: u32,
    numbers: &[i128],
) -> Result<(), AllocError> {
    assert!(rt; from <= to);
    assert!(rt; to <= pipe.head_len());
    assert!(rt; Last.accepts(pipe.ty()));
    check_list(rt, &build_block(alloc, pipe, from, to)?, numbers);
    let prefixes = scan_block(alloc, pipe, &Last, None, 0, from, to, false)?;
    check_list(rt, &prefixes, numbers);
    let suffixes = scan_block(alloc, pipe, &Last, None, 0, from, to, true)?;
    assert_eq!(rt; suffixes.len() as usize, numbers.len());
    match (numbers.last(), fold_block(pipe, &Last, from, to)) {
        (None, folded) => assert_eq!(rt; folded, None),
        (Some(last), folded) => {
            assert_eq!(rt; folded, Some(Tup::one(*last)));
            assert_eq!(rt; suffixes.at(0), Tup::one(*last));
            assert_eq!(rt; suffixes.at(suffixes.len() - 1), Tup::one(*last));
        }
    }
    Ok(())
}

fn check_list(rt: &impl Abort, list: &List, numbers: &[i128]) {
    assert_eq!(rt; list.len() as usize, numbers.len());
    for i in 0..list.len() {
        assert_eq!(rt; list.at(i), Tup::one(numbers[i as usize]), "place {i}");
    }
}

#[test]
fn the_squares_of_odd_numbers_are_given_block_by_block(rt: HostRuntime) -> Result<(), Fail> {
    let alloc = rt.alloc();
    let list = list_of(&rt, alloc, &[1, 2, 3, 4, 6, 7])?;
    let mut pipe = Pipe::of(alloc, Head::One(&list));
    let w64 = ElemType::one(Width::W64);
    let keeps = typed(alloc, &Func::One(odd(alloc)?), w64)?;
    let maps = typed(alloc, &Func::One(square(alloc)?), w64)?;
    assert_eq!(rt; keeps.takes(), pipe.ty());
    assert_eq!(rt; keeps.gives().len(), 1);
    pipe.keep(keeps)?;
    assert_eq!(rt; maps.takes(), pipe.ty());
    pipe.map(maps)?;
    check_block(&rt, alloc, &pipe, 0, 6, &[1, 9, 49])?;
    check_block(&rt, alloc, &pipe, 0, 3, &[1, 9])?;
    check_block(&rt, alloc, &pipe, 3, 5, &[])?;
    check_block(&rt, alloc, &pipe, 2, 2, &[])?;
    pipe.rev();
    check_block(&rt, alloc, &pipe, 0, 4, &[49, 9])?;
    check_block(&rt, alloc, &pipe, 4, 6, &[1])?;
    Ok(())
}

#[test]
fn two_lists_are_joined_and_numbers_are_counted(rt: HostRuntime) -> Result<(), Fail> {
    let alloc = rt.alloc();
    let first = list_of(&rt, alloc, &[5, 6])?;
    let second = list_of(&rt, alloc, &[7, 8])?;
    let mut pipe = side_by_side(&rt, alloc, &first, &second);
    pipe.rev();
    assert_eq!(rt; pipe.head_len(), 2);
    let both = build_block(alloc, &pipe, 0, 2)?;
    assert_eq!(rt; both.len(), 2);
    assert_eq!(rt; both.at(0), Tup::two(6, 8));
    assert_eq!(rt; both.at(1), Tup::two(5, 7));
    let counted = Pipe::of(alloc, Head::Iota(3));
    check_block(&rt, alloc, &counted, 0, 3, &[0, 1, 2])?;
    check_block(&rt, alloc, &Pipe::of(alloc, Head::Iota(0)), 0, 0, &[])?;
    Ok(())
}

#[test]
fn a_list_alone_is_cut_from_either_end(rt: HostRuntime) -> Result<(), Fail> {
    let alloc = rt.alloc();
    let list = list_of(&rt, alloc, &[1, 2, 3, 4, 5])?;
    let mut pipe = Pipe::of(alloc, Head::One(&list));
    check_block(&rt, alloc, &pipe, 0, 5, &[1, 2, 3, 4, 5])?;
    check_block(&rt, alloc, &pipe, 1, 3, &[2, 3])?;
    check_block(&rt, alloc, &pipe, 5, 5, &[])?;
    pipe.rev();
    check_block(&rt, alloc, &pipe, 0, 2, &[5, 4])?;
    check_block(&rt, alloc, &pipe, 2, 5, &[3, 2, 1])?;
    Ok(())
}

// A block is the blocks of its places, which go element by element.
fn check_long(
    rt: &impl Abort,
    alloc: Global,
    pipe: &Pipe,
    from: u32,
    to: u32,
) -> Result<(), AllocError> {
    assert!(rt; from <= to);
    assert!(rt; to <= pipe.head_len());
    assert!(rt; Last.accepts(pipe.ty()));
    let mut numbers = Vec::new(alloc);
    for i in from..to {
        let place = build_block(alloc, pipe, i, i + 1)?;
        assert!(rt; place.len() <= 1);
        if place.len() == 1 {
            numbers.push(place.at(0).at(0))?;
        }
    }
    assert!(rt; numbers.len() > 64);
    check_block(rt, alloc, pipe, from, to, &numbers)
}

#[test]
fn long_blocks_are_what_their_places_give(rt: HostRuntime) -> Result<(), Fail> {
    let alloc = rt.alloc();
    let mut numbers = Vec::new(alloc);
    for i in 0..700 {
        numbers.push(i64::from(i) * 7 - 1000)?;
    }
    assert!(rt; numbers.len() < 1000);
    let list = List::of_w64(numbers);
    let mut pipe = Pipe::of(alloc, Head::One(&list));
    check_long(&rt, alloc, &pipe, 3, 700)?;
    keep(&rt, alloc, &mut pipe, odd(alloc)?)?;
    map(&rt, alloc, &mut pipe, square(alloc)?)?;
    check_long(&rt, alloc, &pipe, 0, 700)?;
    check_long(&rt, alloc, &pipe, 5, 301)?;
    pipe.rev();
    check_long(&rt, alloc, &pipe, 5, 301)?;
    let mut pairs = side_by_side(&rt, alloc, &list, &list);
    keep(&rt, alloc, &mut pairs, odd(alloc)?)?;
    map(&rt, alloc, &mut pairs, product(alloc)?)?;
    check_long(&rt, alloc, &pairs, 1, 698)?;
    let mut counted = Pipe::of(alloc, Head::Iota(600));
    map(&rt, alloc, &mut counted, square(alloc)?)?;
    check_long(&rt, alloc, &counted, 0, 600)?;
    counted.rev();
    check_long(&rt, alloc, &counted, 0, 600)?;
    Ok(())
}

fn keep(rt: &impl Abort, alloc: Global, pipe: &mut Pipe, scalar: Scalar) -> Result<(), Fail>
    requires { nodes (expr_of scalar) ≤ 8 }
{
    let f = typed(alloc, &Func::One(scalar), pipe.ty())?;
    assert_eq!(rt; f.takes(), pipe.ty());
    assert_eq!(rt; f.gives().len(), 1);
    pipe.keep(f)?;
    Ok(())
}

fn map(rt: &impl Abort, alloc: Global, pipe: &mut Pipe, scalar: Scalar) -> Result<(), Fail>
    requires { nodes (expr_of scalar) ≤ 8 }
{
    let f = typed(alloc, &Func::One(scalar), pipe.ty())?;
    assert_eq!(rt; f.takes(), pipe.ty());
    pipe.map(f)?;
    Ok(())
}
