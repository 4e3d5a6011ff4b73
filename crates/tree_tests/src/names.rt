//! What no clause of `tree_aux` says: that the names and the types of the operators are those that
//! users write, by the language's tables.

use op_catalog::OpFault;
use op_laws::{ElemType, Width};
use std::process::Abort;
use std::test::Fail;
use tree_names::{DownName, RoseDownName, RoseName, TreeName};

// Elements of one number of each width, and of two numbers.
fn types() -> [ElemType; 4] {
    let w64 = ElemType::one(Width::W64);
    [
        w64,
        ElemType::one(Width::W96),
        ElemType::one(Width::W128),
        w64.push(Width::W64),
    ]
}

fn told(typed: Result<ElemType, OpFault>) -> &'static str {
    match typed {
        Ok(ty) if ty.len() == 1 => match ty.at(0) {
            Width::W64 => "w64",
            Width::W96 => "w96",
            Width::W128 => "w128",
        },
        Ok(_) => "tuple",
        Err(OpFault::TooWide) => "too wide",
        Err(OpFault::WrongArity) => "wrong arity",
    }
}

// Compares the types of the results at elements of one number of w64, of w96, of w128, and of two.
fn assert_typed(rt: &impl Abort, row: &str, typed: [Result<ElemType, OpFault>; 4]) {
    let mut count = 0u32;
    for (wanted, found) in row.split(", ").zip(typed) {
        assert_eq!(rt; told(found), wanted, "{row}, at {count}");
        count = count.saturating_add(1);
    }
    assert_eq!(rt; count, 4, "{row}");
}

fn assert_tree(rt: &impl Abort, word: &str, name: TreeName, row: &str) {
    assert_eq!(rt; TreeName::of_name(word.as_bytes()), Some(name), "{word}");
    let [a, b, c, d] = types();
    let typed = [name.typed(a), name.typed(b), name.typed(c), name.typed(d)];
    assert_typed(rt, row, typed);
}

#[test]
fn operators_up_trees_have_names_and_types(rt: HostRuntime) -> Result<(), Fail> {
    let sums = "w96, w128, too wide, wrong arity";
    let numbers = "w64, w96, w128, wrong arity";
    assert_tree(&rt, "sum", TreeName::Sum, sums);
    assert_tree(&rt, "min", TreeName::Min, numbers);
    assert_tree(&rt, "max", TreeName::Max, numbers);
    assert_tree(&rt, "heavy", TreeName::Heavy, sums);
    assert_tree(&rt, "bestsub", TreeName::BestSub, sums);
    assert_tree(
        &rt,
        "expr",
        TreeName::Expr,
        "w64, too wide, too wide, wrong arity",
    );
    for word in ["", "su", "sums", "Sum", "ring", "pathsum"] {
        assert_eq!(rt; TreeName::of_name(word.as_bytes()), None, "{word}");
    }
    Ok(())
}

fn assert_rose(rt: &impl Abort, word: &str, name: RoseName, row: &str) {
    assert_eq!(rt; RoseName::of_name(word.as_bytes()), Some(name), "{word}");
    let [a, b, c, d] = types();
    let typed = [name.typed(a), name.typed(b), name.typed(c), name.typed(d)];
    assert_typed(rt, row, typed);
}

#[test]
fn operators_up_rose_trees_have_names_and_types(rt: HostRuntime) -> Result<(), Fail> {
    let sums = "w96, w128, too wide, wrong arity";
    let numbers = "w64, w96, w128, wrong arity";
    assert_rose(&rt, "sum", RoseName::Sum, sums);
    assert_rose(&rt, "max", RoseName::Max, numbers);
    assert_rose(&rt, "min", RoseName::Min, numbers);
    assert_rose(&rt, "heavy", RoseName::Heavy, sums);
    assert_rose(
        &rt,
        "ring",
        RoseName::Ring,
        "w64, too wide, too wide, wrong arity",
    );
    for word in ["", "rin", "rings", "Ring", "bestsub", "expr"] {
        assert_eq!(rt; RoseName::of_name(word.as_bytes()), None, "{word}");
    }
    Ok(())
}

fn assert_down(rt: &impl Abort, word: &str, name: DownName, row: &str) {
    assert_eq!(rt; DownName::of_name(word.as_bytes()), Some(name), "{word}");
    let [a, b, c, d] = types();
    let typed = [name.typed(a), name.typed(b), name.typed(c), name.typed(d)];
    assert_typed(rt, row, typed);
}

#[test]
fn operators_down_trees_have_names_and_types(rt: HostRuntime) -> Result<(), Fail> {
    let sums = "w96, w128, too wide, wrong arity";
    assert_down(&rt, "pathsum", DownName::PathSum, sums);
    assert_down(
        &rt,
        "pathmax",
        DownName::PathMax,
        "w64, w96, w128, wrong arity",
    );
    assert_down(&rt, "turns", DownName::Turns, "w96, w96, w96, w96");
    assert_down(&rt, "heapindex", DownName::HeapIndex, "w64, w64, w64, w64");
    assert_down(&rt, "pre", DownName::Pre, sums);
    for word in ["", "pathsun", "turn", "pres", "Pre", "sum"] {
        assert_eq!(rt; DownName::of_name(word.as_bytes()), None, "{word}");
    }
    Ok(())
}

#[test]
fn the_operator_down_rose_trees_has_its_name_and_types(rt: HostRuntime) -> Result<(), Fail> {
    let name = RoseDownName::PathSum;
    assert_eq!(rt; RoseDownName::of_name(b"pathsum"), Some(name));
    let [a, b, c, d] = types();
    let typed = [name.typed(a), name.typed(b), name.typed(c), name.typed(d)];
    assert_typed(&rt, "w96, w128, too wide, wrong arity", typed);
    for word in ["", "pathsu", "pathsums", "pathmax", "sum"] {
        assert_eq!(rt; RoseDownName::of_name(word.as_bytes()), None, "{word}");
    }
    Ok(())
}
