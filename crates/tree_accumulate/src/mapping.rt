//! Skeletons that go node by node.

ghost use Rattle.std.specs.Prelude.{◌≡◌, ◌+◌, ◌≤◌, ◌++◌, Some, length, IfOk};
ghost use Rattle.std.specs.Prelude.{map as each_of};
ghost use Rattle.op_laws.specs.Trees.{marks_of};
ghost use Rattle.op_laws.specs.TreeSkeletons.{mapped, zipped};
ghost use Rattle.op_laws.specs.Lists.{zipped as zipped_list};
ghost use Rattle.scalar_expr.specs.Values.{values_of};

use crate::filling::list_for;
use bin_tree::Tree;
use op_laws::{ElemType, List, shapes_are_kept};
use scalar_expr::Typed;
use std::alloc::{AllocError, Global};

/// The tree with the function's value at each node. It goes over the nodes once.
pub fn map(alloc: Global, t: &Tree, f: &Typed) -> Result<Tree, AllocError>
    requires { f.now.takes ≡ t.now.ty }
    ensures ty { IfOk result (λ u. u.ty ≡ f.now.gives) }
    ensures tree { IfOk result (λ u. u.tree ≡ mapped (values_of f.now.scalars) t.now.tree) }
{
    shapes_are_kept();
    let values = map_values(alloc, t.values(), f)?;
    t.reshape(alloc, values)
}

// The function's value on each element of a list.
fn map_values(alloc: Global, xs: &List, f: &Typed) -> Result<List, AllocError>
    requires { f.now.takes ≡ xs.now.ty }
    ensures ty { IfOk result (λ v. v.ty ≡ f.now.gives) }
    ensures items { IfOk result (λ v. v.items ≡ each_of (values_of f.now.scalars) xs.now.items) }
{
    let mut out = list_for(alloc, f.gives(), xs.len())?;
    for i in 0..xs.len() {
        out.push(f.eval(xs.at(i)))?;
    }
    Ok(out)
}

/// The tree with the components of both trees at each node, those of `t` first. It goes over
/// the nodes once.
pub fn zip(alloc: Global, t: &Tree, u: &Tree) -> Result<Tree, AllocError>
    requires same { marks_of t.now.tree ≡ marks_of u.now.tree }
    requires few { length t.now.ty + length u.now.ty ≤ 4 }
    ensures ty { IfOk result (λ v. v.ty ≡ t.now.ty ++ u.now.ty) }
    ensures tree { IfOk result (λ v. zipped (λ a b. a ++ b) t.now.tree u.now.tree ≡ Some v.tree) }
{
    let values = zip_values(alloc, t.values(), u.values())?;
    t.reshape(alloc, values)
}

// The components of the elements at the same place, joined.
fn zip_values(alloc: Global, xs: &List, ys: &List) -> Result<List, AllocError>
    requires long { length xs.now.items ≡ length ys.now.items }
    requires few { length xs.now.ty + length ys.now.ty ≤ 4 }
    ensures ty { IfOk result (λ v. v.ty ≡ xs.now.ty ++ ys.now.ty) }
    ensures items { IfOk result (λ v. v.items ≡ zipped_list xs.now.items ys.now.items) }
{
    let mut out = list_for(alloc, joined_type(xs.ty(), ys.ty()), xs.len())?;
    for i in 0..xs.len() {
        out.push(xs.at(i).join(ys.at(i)))?;
    }
    Ok(out)
}

// The widths of both types.
fn joined_type(a: ElemType, b: ElemType) -> ElemType
    requires { length a + length b ≤ 4 }
    ensures { result ≡ a ++ b }
{
    let mut ty = a;
    for i in 0..b.len() {
        ty = ty.push(b.at(i));
    }
    ty
}
