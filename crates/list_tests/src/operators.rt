//! What no clause says: that the definitions are those of the table of operators, by values from
//! outside. Each operator is called at its own type, through its bounds.

ghost use Rattle.std.specs.Prelude.{◌≡◌, IfOk};
ghost use Rattle.op_laws.specs.Admits.{Admits};

use op_catalog::{ListOp, ListVisitor, OpFault, reduce, visit_list_operator};
use op_laws::{ElemType, List, MAX_ELEMENTS, Semi, Tup, Width};
use std::alloc::{AllocError, Global};
use std::process::Abort;
use std::test::Fail;

const GREATEST_64: i128 = 9223372036854775807;

const LEAST_64: i128 = -9223372036854775808;

const GREATEST_96: i128 = 39614081257132168796771975167;

const LEAST_128: i128 = -170141183460469231731687303715884105728;

// Two elements to be combined.
#[derive(Drop)]
struct Pair {
    first: Tup,
    second: Tup,
}

impl ListVisitor for Pair {
    type Out = Tup;

    ghost asks = { λ of _ ty. Admits ty of.first × Admits ty of.second };

    ghost gives = { λ _ _ _ _. Unit {0} };

    fn visit<M: Semi>(self, op: &M, _name: ListOp, _ty: ElemType) -> Tup {
        let both = op.combine(op.lift(self.first), 1, op.lift(self.second), 1);
        op.finish(both, 2)
    }
}

fn list_of(
    rt: &impl Abort,
    alloc: Global,
    ty: ElemType,
    elements: &[Tup],
) -> Result<List, AllocError>
    ensures { IfOk result (λ x. x.ty ≡ ty) }
{
    let mut list = List::new(alloc, ty);
    for t in elements {
        assert!(rt; ty.admits(*t), "{ty:?} admits {t:?}");
        assert!(rt; list.len() < MAX_ELEMENTS);
        list.push(*t)?;
    }
    Ok(list)
}

#[test]
fn a_list_is_reduced_by_the_operator_of_a_name(rt: HostRuntime) -> Result<(), Fail> {
    let w64 = ElemType::one(Width::W64);
    let w96 = ElemType::one(Width::W96);
    let w128 = ElemType::one(Width::W128);
    let pairs = w64.push(Width::W64);
    let one = Tup::one;
    let two = Tup::two;
    let greatest: &[Tup] = &[one(GREATEST_64), one(GREATEST_64)];
    let mixed: &[Tup] = &[one(3), one(-4), one(2), one(-1), one(6), one(-3)];
    let functions: &[Tup] = &[two(2, 1), two(3, 0), two(1, 5)];
    let reversed: &[Tup] = &[two(1, 5), two(3, 0), two(2, 1)];
    let rows: [(ListOp, ElemType, &[Tup], Tup); 28] = [
        (ListOp::Add, w64, &[], one(0)),
        (ListOp::Mul, w64, &[], one(1)),
        (ListOp::Min, w64, &[], one(GREATEST_64)),
        (ListOp::Min, w96, &[], one(GREATEST_96)),
        (ListOp::Max, w64, &[], one(LEAST_64)),
        (ListOp::Max, w128, &[], one(LEAST_128)),
        (ListOp::And, w64, &[], one(-1)),
        (ListOp::Or, w64, &[], one(0)),
        (ListOp::Xor, w64, &[], one(0)),
        (ListOp::Mss, w64, &[], one(0)),
        (ListOp::Affine, pairs, &[], two(1, 0)),
        (ListOp::Add, w64, greatest, one(18446744073709551614)),
        (ListOp::Add, w96, greatest, one(18446744073709551614)),
        (ListOp::Mul, w64, greatest, one(1)),
        (ListOp::Add, w64, mixed, one(3)),
        (ListOp::Mul, w64, mixed, one(-432)),
        (ListOp::Min, w64, mixed, one(-4)),
        (ListOp::Min, w128, mixed, one(-4)),
        (ListOp::Max, w64, mixed, one(6)),
        (ListOp::Max, w96, mixed, one(6)),
        (ListOp::And, w64, mixed, one(0)),
        (ListOp::And, w64, &[one(12), one(10)], one(8)),
        (ListOp::Or, w64, mixed, one(-1)),
        (ListOp::Xor, w64, mixed, one(-7)),
        (ListOp::Mss, w64, mixed, one(7)),
        (ListOp::Mss, w96, mixed, one(7)),
        (ListOp::Affine, pairs, functions, two(6, 8)),
        (ListOp::Affine, pairs, reversed, two(6, 31)),
    ];
    for (name, ty, elements, want) in rows {
        let list = list_of(&rt, rt.alloc(), ty, elements)?;
        assert!(rt; name.typed(ty).is_ok(), "{name:?} takes {ty:?}");
        assert!(rt; name.has_unit(), "{name:?} has a unit");
        let got = reduce(&list, name);
        assert_eq!(rt; got, want, "{name:?} of {elements:?}");
    }
    Ok(())
}

#[test]
fn an_element_and_one_after_it_are_combined(rt: HostRuntime) -> Result<(), Fail> {
    let w64 = ElemType::one(Width::W64);
    let mixed = w64.push(Width::W128);
    let first = Tup::two(7, LEAST_128);
    let second = Tup::two(-1, 5);
    let rows = [
        (ListOp::First, mixed, first, second, first),
        (ListOp::Last, mixed, first, second, second),
        (ListOp::Mss, w64, Tup::one(5), Tup::one(-2), Tup::one(5)),
    ];
    for (name, ty, first, second, want) in rows {
        assert!(rt; name.typed(ty).is_ok(), "{name:?} takes {ty:?}");
        assert!(rt; ty.admits(first) && ty.admits(second));
        let got = visit_list_operator(Pair { first, second }, name, ty);
        assert_eq!(rt; got, want, "{name:?} of {first:?} and {second:?}");
    }
    Ok(())
}

#[test]
fn a_name_takes_its_types_and_no_other(rt: HostRuntime) {
    let w64 = ElemType::one(Width::W64);
    let w96 = ElemType::one(Width::W96);
    let w128 = ElemType::one(Width::W128);
    let pairs = w64.push(Width::W64);
    let wide = w64.push(Width::W96);
    let rows: [(&[u8], ElemType, Result<ElemType, OpFault>); 16] = [
        (b"add", w64, Ok(w96)),
        (b"add", w96, Ok(w128)),
        (b"add", w128, Err(OpFault::TooWide)),
        (b"add", pairs, Err(OpFault::WrongArity)),
        (b"mul", w64, Ok(w64)),
        (b"mul", w96, Err(OpFault::TooWide)),
        (b"min", w128, Ok(w128)),
        (b"max", wide, Err(OpFault::WrongArity)),
        (b"and", w64, Ok(w64)),
        (b"or", w96, Err(OpFault::TooWide)),
        (b"xor", w64, Ok(w64)),
        (b"mss", w96, Ok(w128)),
        (b"affine", pairs, Ok(pairs)),
        (b"affine", wide, Err(OpFault::TooWide)),
        (b"affine", w64, Err(OpFault::WrongArity)),
        (b"first", wide, Ok(wide)),
    ];
    for (word, ty, want) in rows {
        let got = ListOp::of_name(word).map(|op| op.typed(ty));
        assert_eq!(rt; got, Some(want), "{word:?} at {ty:?}");
    }
    assert_eq!(rt; ListOp::of_name(b"last"), Some(ListOp::Last));
    assert_eq!(rt; ListOp::of_name(b"sum"), None);
    assert_eq!(rt; ListOp::of_name(b""), None);
}
