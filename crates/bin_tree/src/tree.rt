//! Binary trees, kept by columns in preorder.

ghost use Rattle.std.specs.Prelude.{◌≡◌, ℕ, ◌+◌, ◌<◌, ◌≤◌, ◌^◌, ◌↔◌, true, false, [], ◌∷◌, length, map, slice_index_or, IsTrue, IfOk, IsErrOf, MatchResult};
ghost use Rattle.op_laws.specs.Admits.{Admits};
ghost use Rattle.bin_tree.specs.Trees.{BTree, size, is_leaf, top, sub_at, column, marks_of, values_of, Each, TypedTree, IsTreeOf, IsOnlyTreeOf};
ghost use Rattle.bin_tree.specs.Places.{IsClosedAt, IsShort, IsWhole, arity};
ghost use Rattle.bin_tree.specs.Faults.{IsCause};
ghost use Rattle.bin_tree.specs.Columns.{tree_from, IsSizedFrom};

use crate::fault::TreeFault;
use crate::steps::Steps;
use op_laws::{List, Tup};
use std::alloc::{AllocError, Global};
use std::marker::Model;
use std::sync::ledger::Ledger;

/// A node: whether it is a leaf, and its value.
#[derive(Clone, Copy, Debug, PartialEq, Eq)]
pub struct NodeRef {
    pub leaf: bool,
    pub value: Tup,
}

/// A binary tree of elements of one type. Its nodes are named by their places in preorder, from 0
/// on: a node comes before its left subtree, and that before its right one. Beside its elements it
/// takes five bytes a node.
#[derive(Debug)]
pub struct Tree {
    leaf: Vec<bool>,
    values: List,
    sizes: Vec<u32>,
}

// By hand, so that where a tree is let go there is one call, and not one a column.
impl Drop for Tree {
    fn drop(self) {
        let Self {
            leaf: _,
            values: _,
            sizes: _,
        } = self;
    }
}

impl Model for Tree {
    ghost use Rattle.bin_tree.specs.Trees.{TypedTree};
    ghost use Rattle.bin_tree.specs.Columns.{tree_from, AreColumns};
    ghost use Rattle.bin_tree.specs.Codes.{tree_code};

    ghost Value = { TypedTree };

    ghost coded = { tree_code };

    ghost view = { λ t. record { ty = t.values.ty; tree = tree_from t.leaf.items t.values.items } };

    ghost invariant = { λ t. AreColumns (tree_from t.leaf.items t.values.items) t.leaf.items t.values.items t.sizes.items };
}

impl Tree {
    /// The tree with these marks, `true` for a leaf, and these values in preorder. It goes over the
    /// marks twice, and asks for four bytes a node once they are known to make a tree.
    pub fn from_marks(alloc: Global, leaf: Vec<bool>, values: List) -> Result<Tree, TreeFault>
        requires { length leaf.items ≡ length values.items }
        ensures ok { IfOk result (IsTreeOf leaf.items values) }
        ensures only { IfOk result (IsOnlyTreeOf leaf.items values) }
        // The preorder of a tree is never at fault.
        ensures given { (t : TypedTree) → IsTreeOf leaf.items values t → MatchResult result (λ u. u ≡ t) (λ fault. fault ≡ TreeFault.Memory) }
        ensures closed { (i : ℕ) → IsErrOf result (TreeFault.Closed i) ↔ IsClosedAt (map arity leaf.items) i }
        ensures short { IsErrOf result TreeFault.Short ↔ IsShort (map arity leaf.items) }
    {
        // By this call it is known that the nodes are fewer than 2^32.
        let _nodes = values.len();
        check_marks(&leaf)?;
        Ok(with_sizes(alloc, leaf, values)?)
    }

    /// How many nodes there are, leaves and inner nodes.
    #[inline(always)]
    pub fn len(&self) -> u32
        ensures value { result ≡ size self.now.tree }
        ensures some { 0 < result }
        ensures marks { length (marks_of self.now.tree) ≡ result }
        ensures values { length (values_of self.now.tree) ≡ result }
    {
        self.values.len()
    }

    /// The values in preorder.
    #[inline(always)]
    pub fn values(&self) -> &List
        ensures { result.now ≡ record { ty = self.now.ty; items = values_of self.now.tree } }
    {
        &self.values
    }

    /// How many nodes the subtree at place `i` has.
    #[inline(always)]
    pub fn size(&self, i: u32) -> u32
        requires { i < size self.now.tree }
        ensures value { result ≡ size (sub_at self.now.tree i) }
        ensures within { i + result ≤ size self.now.tree }
        ensures few { size self.now.tree < 2 ^ 32 }
    {
        self.sizes[i as usize]
    }

    /// Whether a leaf stands at place `i`.
    #[inline(always)]
    pub fn is_leaf(&self, i: u32) -> bool
        requires { i < size self.now.tree }
        ensures value { result ≡ is_leaf (sub_at self.now.tree i) }
        ensures mark { result ≡ slice_index_or (marks_of self.now.tree) i false }
    {
        self.leaf[i as usize]
    }

    /// The value at place `i`, put together from its columns.
    #[inline(always)]
    pub fn value(&self, i: u32) -> Tup
        requires { i < size self.now.tree }
        ensures value { result ≡ top (sub_at self.now.tree i) }
        ensures item { result ≡ slice_index_or (values_of self.now.tree) i [] }
        ensures admitted { Admits self.now.ty result }
    {
        self.values.at(i)
    }

    /// The node at place `i`. It is one step.
    #[inline(always)]
    pub fn node<L: Ledger>(&self, i: u32, steps: &mut Steps<L>) -> NodeRef
        requires { i < size self.now.tree }
        ensures leaf { result.leaf ≡ is_leaf (sub_at self.now.tree i) }
        ensures value { result.value ≡ top (sub_at self.now.tree i) }
        ensures admitted { Admits self.now.ty result.value }
        ensures one_step { steps.new ≡ steps.old + 1 }
    {
        steps.tick();
        NodeRef {
            leaf: self.is_leaf(i),
            value: self.value(i),
        }
    }

    /// Each value is one of the tree's type. It does nothing: its clause is for proofs that go over
    /// all nodes.
    #[inline(always)]
    pub fn admitted(&self)
        ensures { Each (Admits self.now.ty) self.now.tree }
    {
        self.values.admitted();
    }

    /// The tree of this shape with these values in preorder. It copies the marks and the sizes, and
    /// takes the values as they are.
    pub fn reshape(&self, alloc: Global, values: List) -> Result<Tree, AllocError>
        requires { length values.items ≡ size self.now.tree }
        ensures { IfOk result (IsTreeOf (marks_of self.now.tree) values) }
    {
        let leaf = Vec::from_slice(alloc, &self.leaf)?;
        let sizes = Vec::from_slice(alloc, &self.sizes)?;
        Ok(Tree {
            leaf,
            values,
            sizes,
        })
    }

    /// Whether both trees have the same marks, so that only their values may differ. It goes over
    /// the marks once.
    pub fn same_shape(&self, other: &Tree) -> bool
        ensures { IsTrue result ↔ (marks_of self.now.tree ≡ marks_of other.now.tree) }
    {
        self.leaf.as_slice() == other.leaf.as_slice()
    }
}

// How many children a node with this mark has.
#[inline(always)]
fn arity(leaf: bool) -> u64
    ensures { result ≡ arity leaf }
{
    if leaf { 0 } else { 2 }
}

// Whether the marks are those of one tree.
fn check_marks(leaf: &[bool]) -> Result<(), TreeFault>
    requires { length leaf.now < 2 ^ 32 }
    ensures { MatchResult result (λ _. IsWhole (map arity leaf.now)) (IsCause (map arity leaf.now)) }
{
    let mut places: u64 = 1;
    for (i, mark) in leaf.iter().enumerate() {
        if places == 0 {
            return Err(TreeFault::Closed(i as u32));
        }
        places = places - 1 + arity(*mark);
    }
    if places > 0 {
        return Err(TreeFault::Short);
    }
    Ok(())
}

// The tree of marks that are those of one tree.
fn with_sizes(alloc: Global, leaf: Vec<bool>, values: List) -> Result<Tree, AllocError>
    requires whole { IsWhole (map arity leaf.items) }
    requires same { length leaf.items ≡ length values.items }
    requires few { length leaf.items < 2 ^ 32 }
    ensures { IfOk result (λ t. t ≡ record { ty = values.ty; tree = tree_from leaf.items values.items }) }
{
    let mut sizes = vec![in alloc; 0u32; leaf.len()]?;
    fill_sizes(&leaf, &mut sizes);
    Ok(Tree {
        leaf,
        values,
        sizes,
    })
}

// The sizes of the subtrees, from the last place to the first.
fn fill_sizes(leaf: &[bool], sizes: &mut [u32])
    requires tree { (t : BTree Tup) × (marks_of t ≡ leaf.now) }
    requires same { length sizes.old ≡ length leaf.now }
    requires few { length leaf.now < 2 ^ 32 }
    ensures { (t : BTree Tup) → marks_of t ≡ leaf.now → sizes.new ≡ column size t }
{
    let mut i = leaf.len();
    while i > 0 {
        i -= 1;
        sizes[i] = size_at(leaf, sizes, i);
    }
}

// The size of the subtree at a place, from the sizes at the places after it.
#[inline(always)]
fn size_at(leaf: &[bool], sizes: &[u32], i: usize) -> u32
    requires tree { (t : BTree Tup) × IsSizedFrom t leaf.now (i + 1) sizes.now }
    requires within { i < length leaf.now }
    requires few { length leaf.now < 2 ^ 32 }
    ensures { (t : BTree Tup) → IsSizedFrom t leaf.now (i + 1) sizes.now → result ≡ size (sub_at t i) }
{
    if leaf[i] {
        return 1;
    }
    let left = sizes[i + 1];
    let right = sizes[i + 1 + left as usize];
    1 + left + right
}
