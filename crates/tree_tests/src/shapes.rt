//! What no clause says: that a tree is made where there is memory, and that the clauses mean what
//! is worked out here by hand.

ghost use Rattle.std.specs.Prelude.{◌≡◌, ◌<◌, length, IfOk};

use bin_tree::{NodeRef, Rose, Steps, Tree, TreeFault};
use op_laws::{List, Tup};
use std::alloc::{AllocError, Global};
use std::marker::Brand;
use std::process::Abort;
use std::sync::ledger::{Blank, Ledger};
use std::test::Fail;

// The numbers 1, 2, 3 and so on, one for each node.
fn numbers(rt: &impl Abort, alloc: Global, nodes: usize) -> Result<List, AllocError>
    ensures { IfOk result (λ xs. length xs.items ≡ nodes) }
{
    assert!(rt; nodes < 100);
    let mut numbers = vec![in alloc; 0i64; nodes]?;
    for i in 0..nodes {
        numbers[i] = i as i64 + 1;
    }
    Ok(List::of_w64(numbers))
}

fn assert_tree(rt: &impl Abort, tree: &Tree, sizes: &[u32]) {
    assert_eq!(rt; tree.len() as usize, sizes.len());
    for i in 0..tree.len() {
        let node = (tree.size(i), tree.is_leaf(i), tree.value(i));
        let size = sizes[i as usize];
        assert_eq!(rt;
            node,
            (size, size == 1, Tup::one(i as i128 + 1)),
            "node {i}"
        );
    }
}

#[test]
fn marks_make_a_tree_or_tell_the_first_fault(rt: HostRuntime) -> Result<(), Fail> {
    const N: bool = false;
    const L: bool = true;
    // marks, and the sizes of the subtrees or the fault
    let table: [(&[bool], &[u32], Option<TreeFault>); 11] = [
        (&[], &[], Some(TreeFault::Short)),
        (&[L], &[1], None),
        (&[L, L], &[], Some(TreeFault::Closed(1))),
        (&[L, N, L], &[], Some(TreeFault::Closed(1))),
        (&[N], &[], Some(TreeFault::Short)),
        (&[N, L], &[], Some(TreeFault::Short)),
        (&[N, L, L], &[3, 1, 1], None),
        (&[N, L, L, N], &[], Some(TreeFault::Closed(3))),
        (&[N, N, L, L, L], &[5, 3, 1, 1, 1], None),
        (&[N, L, N, L, L], &[5, 1, 3, 1, 1], None),
        (&[N, L, N, L, L, L, L], &[], Some(TreeFault::Closed(5))),
    ];
    for (marks, sizes, fault) in &table {
        let leaf = marks.to_vec(rt.alloc())?;
        let values = numbers(&rt, rt.alloc(), leaf.len())?;
        match Tree::from_marks(rt.alloc(), leaf, values) {
            Ok(tree) => assert_tree(&rt, &tree, sizes),
            Err(found) => assert_eq!(rt; Some(found), *fault, "of {marks:?}"),
        }
    }
    Ok(())
}

fn assert_rose(rt: &impl Abort, rose: &Rose, counts: &[u32]) {
    assert_eq!(rt; rose.len() as usize, counts.len());
    for i in 0..rose.len() {
        let node = (rose.children(i), rose.value(i));
        assert_eq!(rt;
            node,
            (counts[i as usize], Tup::one(i as i128 + 1)),
            "node {i}"
        );
    }
}

#[test]
fn counts_make_a_rose_tree_or_tell_the_first_fault(rt: HostRuntime) -> Result<(), Fail> {
    let table: [(&[u32], Option<TreeFault>); 11] = [
        (&[], Some(TreeFault::Short)),
        (&[0], None),
        (&[0, 0], Some(TreeFault::Closed(1))),
        (&[0, 4294967295], Some(TreeFault::Closed(1))),
        (&[1], Some(TreeFault::Short)),
        (&[4294967295, 4294967295, 0], Some(TreeFault::Short)),
        (&[1, 1, 1, 0], None),
        (&[3, 0, 0, 0], None),
        (&[2, 0, 1, 0], None),
        (&[2, 0, 1, 0, 1], Some(TreeFault::Closed(4))),
        (&[2, 0, 0, 1, 0], Some(TreeFault::Closed(3))),
    ];
    for (counts, fault) in &table {
        let children = counts.to_vec(rt.alloc())?;
        let values = numbers(&rt, rt.alloc(), children.len())?;
        assert!(rt; children.len() < 100);
        match Rose::from_counts(rt.alloc(), children, values) {
            Ok(rose) => {
                assert_eq!(rt; None, *fault, "{counts:?}");
                assert_rose(&rt, &rose, counts);
            }
            Err(found) => assert_eq!(rt; Some(found), *fault, "{counts:?}"),
        }
    }
    Ok(())
}

// Compares each node with what the values and sizes by place say, and counts the looks.
fn assert_nodes<L: Ledger>(rt: &impl Abort, tree: &Tree, blank: Blank)
    requires name { blank.name ≡ L.name }
    requires parts { blank.parts ≡ L.parts }
    requires some { 0 < blank.parts }
{
    let mut steps = Steps::<L>::new(blank);
    for i in 0..tree.len() {
        let leaf = tree.size(i) == 1;
        let value = tree.value(i);
        assert_eq!(rt;
            tree.node(i, &mut steps),
            NodeRef { leaf, value },
            "node {i}"
        );
    }
}

#[test]
fn a_tree_keeps_its_shape_with_other_values(rt: HostRuntime) -> Result<(), Fail> {
    let leaf = [false, true, false, true, true].to_vec(rt.alloc())?;
    let tree = Tree::from_marks(rt.alloc(), leaf, numbers(&rt, rt.alloc(), 5)?)?;
    assert!(rt; tree.len() == 5);
    assert_nodes::<Brand>(&rt, &tree, Blank::new(1));
    let other = [0, -2, -3, -4, -5].to_vec(rt.alloc())?;
    let tree = tree.reshape(rt.alloc(), List::of_w64(other))?;
    assert_nodes::<Brand>(&rt, &tree, Blank::new(1));
    assert!(rt; tree.len() == 5);
    assert_eq!(rt; tree.value(4), Tup::one(-5));
    Ok(())
}

#[test]
fn a_rose_tree_keeps_its_shape_with_other_values(rt: HostRuntime) -> Result<(), Fail> {
    let counts = [2, 0, 1, 0].to_vec(rt.alloc())?;
    let rose = Rose::from_counts(rt.alloc(), counts, numbers(&rt, rt.alloc(), 4)?)?;
    assert!(rt; rose.len() == 4);
    let other = [9, 8, 7, 6].to_vec(rt.alloc())?;
    let rose = rose.reshape(rt.alloc(), List::of_w64(other))?;
    assert!(rt; rose.len() == 4);
    assert_eq!(rt; (rose.children(0), rose.children(2)), (2, 1));
    assert_eq!(rt; rose.value(3), Tup::one(6));
    Ok(())
}
