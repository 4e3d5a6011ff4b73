//! Each node gets the value of one of its children.

ghost use Rattle.std.specs.Prelude.{◌≡◌, ◌<◌, true, false, [], ◌∷◌, length, IfOk};
ghost use Rattle.op_laws.specs.Admits.{Admits};
ghost use Rattle.op_laws.specs.Trees.{size, is_leaf, sub_at, column};
ghost use Rattle.op_laws.specs.TreeSkeletons.{left_values, right_values};
ghost use Rattle.tree_accumulate.specs.Children.{child_at};

use crate::filling::list_for;
use bin_tree::Tree;
use op_laws::{ElemType, List, Tup};
use std::alloc::{AllocError, Global};

/// The tree with the value of the left child at each inner node, and `c` at each leaf. It goes over
/// the nodes once.
pub fn getchl(alloc: Global, t: &Tree, c: i64) -> Result<Tree, AllocError>
    requires { length t.now.ty ≡ 1 }
    ensures ty { IfOk result (λ u. u.ty ≡ t.now.ty) }
    ensures tree { IfOk result (λ u. u.tree ≡ left_values (c ∷ []) t.now.tree) }
{
    let leaf = single(t.values().ty(), c);
    let values = child_values(alloc, t, leaf, false)?;
    t.reshape(alloc, values)
}

/// The same with the value of the right child.
pub fn getchr(alloc: Global, t: &Tree, c: i64) -> Result<Tree, AllocError>
    requires { length t.now.ty ≡ 1 }
    ensures ty { IfOk result (λ u. u.ty ≡ t.now.ty) }
    ensures tree { IfOk result (λ u. u.tree ≡ right_values (c ∷ []) t.now.tree) }
{
    let leaf = single(t.values().ty(), c);
    let values = child_values(alloc, t, leaf, true)?;
    t.reshape(alloc, values)
}

// A 64-bit number as an element of a type of one number, whatever its width.
fn single(_ty: ElemType, c: i64) -> Tup
    requires { length _ty ≡ 1 }
    ensures value { result ≡ c ∷ [] }
    ensures admitted { Admits _ty result }
{
    Tup::one(i128::from(c))
}

// What each node gets, in preorder.
fn child_values(alloc: Global, t: &Tree, leaf: Tup, right: bool) -> Result<List, AllocError>
    requires { Admits t.now.ty leaf }
    ensures ty { IfOk result (λ v. v.ty ≡ t.now.ty) }
    ensures items { IfOk result (λ v. v.items ≡ column (child_at right leaf) t.now.tree) }
{
    let mut out = list_for(alloc, t.values().ty(), t.len())?;
    for i in 0..t.len() {
        out.push(child_value(t, i, leaf, right))?;
    }
    Ok(out)
}

// What the node at place `i` gets.
#[inline(always)]
fn child_value(t: &Tree, i: u32, leaf: Tup, right: bool) -> Tup
    requires within { i < size t.now.tree }
    requires admitted { Admits t.now.ty leaf }
    ensures value { result ≡ child_at right leaf (sub_at t.now.tree i) }
    ensures admitted { Admits t.now.ty result }
{
    if t.is_leaf(i) {
        leaf
    } else if right {
        right_value(t, i, leaf)
    } else {
        left_value(t, i, leaf)
    }
}

// The value of an inner node's left child.
#[inline(always)]
fn left_value(t: &Tree, i: u32, _leaf: Tup) -> Tup
    requires within { i < size t.now.tree }
    requires inner { is_leaf (sub_at t.now.tree i) ≡ false }
    ensures value { result ≡ child_at false _leaf (sub_at t.now.tree i) }
    ensures admitted { Admits t.now.ty result }
{
    let _nodes = t.len();
    t.value(i + 1)
}

// The value of its right child, which stands after the left subtree.
#[inline(always)]
fn right_value(t: &Tree, i: u32, _leaf: Tup) -> Tup
    requires within { i < size t.now.tree }
    requires inner { is_leaf (sub_at t.now.tree i) ≡ false }
    ensures value { result ≡ child_at true _leaf (sub_at t.now.tree i) }
    ensures admitted { Admits t.now.ty result }
{
    let _nodes = t.len();
    let left = i + 1;
    t.value(left + t.size(left))
}
