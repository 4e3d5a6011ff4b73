//! What no clause of `tree_catalog` says: that each visitor can be called at each name and type that
//! the name takes.

ghost use Rattle.std.specs.Prelude.{◌≡◌, Ok};
ghost use Rattle.tree_names.specs.Names.{tree_typed, down_typed, rose_typed, rose_down_typed};

use op_laws::{DownOp, ElemType, RoseDown, RoseOp, TreeOp, Width};
use std::process::Abort;
use tree_catalog::{
    DownVisitor, RoseDownVisitor, RoseVisitor, TreeVisitor, visit_down_operator,
    visit_rose_down_operator, visit_rose_operator, visit_tree_operator,
};
use tree_names::{DownName, RoseDownName, RoseName, TreeName};

// The type of the results.
#[derive(Clone, Copy)]
struct Given;

impl TreeVisitor for Given {
    type Out = ElemType;

    ghost asks = { λ _ _ _. Unit {0} };

    ghost gives = { λ _ name ty out. tree_typed name ty ≡ Ok out };

    fn visit<K: TreeOp>(self, op: &K, _name: TreeName, ty: ElemType) -> ElemType {
        op.result(ty)
    }
}

impl DownVisitor for Given {
    type Out = ElemType;

    ghost asks = { λ _ _ _. Unit {0} };

    ghost gives = { λ _ name ty out. down_typed name ty ≡ Ok out };

    fn visit<K: DownOp>(self, op: &K, _name: DownName, ty: ElemType) -> ElemType {
        op.result(ty)
    }
}

impl RoseVisitor for Given {
    type Out = ElemType;

    ghost asks = { λ _ _ _. Unit {0} };

    ghost gives = { λ _ name ty out. rose_typed name ty ≡ Ok out };

    fn visit<K: RoseOp>(self, op: &K, _name: RoseName, ty: ElemType) -> ElemType {
        op.result(ty)
    }
}

impl RoseDownVisitor for Given {
    type Out = ElemType;

    ghost asks = { λ _ _ _. Unit {0} };

    ghost gives = { λ _ name ty out. rose_down_typed name ty ≡ Ok out };

    fn visit<K: RoseDown>(self, op: &K, _name: RoseDownName, ty: ElemType) -> ElemType {
        op.result(ty)
    }
}

// Elements of one number of each width, and of two numbers.
fn types() -> [ElemType; 4] {
    let w64 = ElemType::one(Width::W64);
    [
        w64,
        ElemType::one(Width::W96),
        ElemType::one(Width::W128),
        w64.push(Width::W64),
    ]
}

fn assert_tree(rt: &impl Abort, name: TreeName) {
    for ty in types() {
        if let Ok(wanted) = name.typed(ty) {
            assert_eq!(rt; visit_tree_operator(Given, name, ty), wanted, "{name:?}");
        }
    }
}

fn assert_down(rt: &impl Abort, name: DownName) {
    for ty in types() {
        if let Ok(wanted) = name.typed(ty) {
            assert_eq!(rt; visit_down_operator(Given, name, ty), wanted, "{name:?}");
        }
    }
}

fn assert_rose(rt: &impl Abort, name: RoseName) {
    for ty in types() {
        if let Ok(wanted) = name.typed(ty) {
            assert_eq!(rt; visit_rose_operator(Given, name, ty), wanted, "{name:?}");
        }
    }
}

#[test]
fn each_operator_on_binary_trees_can_be_called(rt: HostRuntime) {
    assert_tree(&rt, TreeName::Sum);
    assert_tree(&rt, TreeName::Min);
    assert_tree(&rt, TreeName::Max);
    assert_tree(&rt, TreeName::Heavy);
    assert_tree(&rt, TreeName::BestSub);
    assert_tree(&rt, TreeName::Expr);
    assert_down(&rt, DownName::PathSum);
    assert_down(&rt, DownName::PathMax);
    assert_down(&rt, DownName::Turns);
    assert_down(&rt, DownName::HeapIndex);
    assert_down(&rt, DownName::Pre);
}

#[test]
fn each_operator_on_rose_trees_can_be_called(rt: HostRuntime) {
    assert_rose(&rt, RoseName::Sum);
    assert_rose(&rt, RoseName::Max);
    assert_rose(&rt, RoseName::Min);
    assert_rose(&rt, RoseName::Heavy);
    assert_rose(&rt, RoseName::Ring);
    for ty in types() {
        let name = RoseDownName::PathSum;
        if let Ok(wanted) = name.typed(ty) {
            assert_eq!(rt; visit_rose_down_operator(Given, name, ty), wanted);
        }
    }
}
