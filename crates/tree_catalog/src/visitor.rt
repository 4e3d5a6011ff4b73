//! Calls that are generic over the operator, made at the operator of a name and a type.

ghost use Rattle.std.specs.Prelude.{IsOk};
ghost use Rattle.std.specs.Prelude.{List as Seq};
ghost use Rattle.op_laws.specs.declared.width.Width.{Width as Kind};
ghost use Rattle.tree_names.specs.declared.tree_name.TreeName.{TreeName as Up};
ghost use Rattle.tree_names.specs.declared.down_name.DownName.{DownName as Down};
ghost use Rattle.tree_names.specs.declared.rose_name.RoseName.{RoseName as RoseUp};
ghost use Rattle.tree_names.specs.declared.rose_down_name.RoseDownName.{RoseDownName as RoseDownward};
ghost use Rattle.tree_names.specs.Names.{tree_typed, down_typed, rose_typed, rose_down_typed};
ghost use Rattle.tree_catalog.specs.Operators.{IsTreeOperatorOf, IsDownOperatorOf, IsRoseOperatorOf, IsRoseDownOperatorOf};

use op_laws::{DownOp, ElemType, RoseDown, RoseOp, TreeOp};
use tree_names::{DownName, RoseDownName, RoseName, TreeName};

/// A call that takes any operator that goes up binary trees.
pub trait TreeVisitor {
    /// What the call answers.
    type Out;

    // What it asks of the name and the type.
    ghost asks: { Self → Up → Seq Kind → Type 0 };

    // What its answer is, by the name and the type.
    ghost gives: { Self → Up → Seq Kind → Self.Out → Type 0 };

    /// The call, with the operator of this name for elements of this type.
    fn visit<K: TreeOp>(self, op: &K, name: TreeName, ty: ElemType) -> Self::Out
        requires ready { asks self name ty }
        requires operator { IsTreeOperatorOf (K.takes op.now) (K.gives op.now) (K.finished op.now) (K.upward op.now) name ty }
        ensures { gives self name ty result };
}

/// A call that takes any operator that comes down binary trees.
pub trait DownVisitor {
    /// What the call answers.
    type Out;

    // What it asks of the name and the type.
    ghost asks: { Self → Down → Seq Kind → Type 0 };

    // What its answer is, by the name and the type.
    ghost gives: { Self → Down → Seq Kind → Self.Out → Type 0 };

    /// The call, with the operator of this name for elements of this type.
    fn visit<K: DownOp>(self, op: &K, name: DownName, ty: ElemType) -> Self::Out
        requires ready { asks self name ty }
        requires operator { IsDownOperatorOf (K.takes op.now) (K.gives op.now) (K.finished op.now) (K.downward op.now) name ty }
        ensures { gives self name ty result };
}

/// A call that takes any operator that goes up rose trees.
pub trait RoseVisitor {
    /// What the call answers.
    type Out;

    // What it asks of the name and the type.
    ghost asks: { Self → RoseUp → Seq Kind → Type 0 };

    // What its answer is, by the name and the type.
    ghost gives: { Self → RoseUp → Seq Kind → Self.Out → Type 0 };

    /// The call, with the operator of this name for elements of this type.
    fn visit<K: RoseOp>(self, op: &K, name: RoseName, ty: ElemType) -> Self::Out
        requires ready { asks self name ty }
        requires operator { IsRoseOperatorOf (K.takes op.now) (K.gives op.now) (K.finished op.now) (K.nothing op.now) (K.upward op.now) name ty }
        ensures { gives self name ty result };
}

/// A call that takes any operator that comes down rose trees.
pub trait RoseDownVisitor {
    /// What the call answers.
    type Out;

    // What it asks of the name and the type.
    ghost asks: { Self → RoseDownward → Seq Kind → Type 0 };

    // What its answer is, by the name and the type.
    ghost gives: { Self → RoseDownward → Seq Kind → Self.Out → Type 0 };

    /// The call, with the operator of this name for elements of this type.
    fn visit<K: RoseDown>(self, op: &K, name: RoseDownName, ty: ElemType) -> Self::Out
        requires ready { asks self name ty }
        requires operator { IsRoseDownOperatorOf (K.takes op.now) (K.gives op.now) (K.finished op.now) (K.downward op.now) name ty }
        ensures { gives self name ty result };
}

/// Makes the call `$call`, in which `$op` is the operator that goes up binary trees of the name `$name` for elements
/// of the type `$ty`, at its own type. Calls that start threads are made by this macro, since a
/// method of a trait can't make them.
#[macro_export]
macro_rules! with_tree_operator {
    ($name:expr, $ty:expr, $op:ident => $call:expr) => {
        match $crate::TreeOperator::of($name, $ty) {
            $crate::TreeOperator::Sum64($op) => $call,
            $crate::TreeOperator::Sum96($op) => $call,
            $crate::TreeOperator::Min64($op) => $call,
            $crate::TreeOperator::Min96($op) => $call,
            $crate::TreeOperator::Min128($op) => $call,
            $crate::TreeOperator::Max64($op) => $call,
            $crate::TreeOperator::Max96($op) => $call,
            $crate::TreeOperator::Max128($op) => $call,
            $crate::TreeOperator::Heavy64($op) => $call,
            $crate::TreeOperator::Heavy96($op) => $call,
            $crate::TreeOperator::BestSub64($op) => $call,
            $crate::TreeOperator::BestSub96($op) => $call,
            $crate::TreeOperator::Expr($op) => $call,
        }
    };
}

/// Makes the call `$call`, in which `$op` is the operator that comes down binary trees of the name `$name` for elements
/// of the type `$ty`, at its own type. Calls that start threads are made by this macro, since a
/// method of a trait can't make them.
#[macro_export]
macro_rules! with_down_operator {
    ($name:expr, $ty:expr, $op:ident => $call:expr) => {
        match $crate::DownOperator::of($name, $ty) {
            $crate::DownOperator::PathSum64($op) => $call,
            $crate::DownOperator::PathSum96($op) => $call,
            $crate::DownOperator::PathMax64($op) => $call,
            $crate::DownOperator::PathMax96($op) => $call,
            $crate::DownOperator::PathMax128($op) => $call,
            $crate::DownOperator::Turns($op) => $call,
            $crate::DownOperator::HeapIndex($op) => $call,
            $crate::DownOperator::Pre64($op) => $call,
            $crate::DownOperator::Pre96($op) => $call,
        }
    };
}

/// Makes the call `$call`, in which `$op` is the operator that goes up rose trees of the name `$name` for elements
/// of the type `$ty`, at its own type. Calls that start threads are made by this macro, since a
/// method of a trait can't make them.
#[macro_export]
macro_rules! with_rose_operator {
    ($name:expr, $ty:expr, $op:ident => $call:expr) => {
        match $crate::RoseOperator::of($name, $ty) {
            $crate::RoseOperator::Sum64($op) => $call,
            $crate::RoseOperator::Sum96($op) => $call,
            $crate::RoseOperator::Max64($op) => $call,
            $crate::RoseOperator::Max96($op) => $call,
            $crate::RoseOperator::Max128($op) => $call,
            $crate::RoseOperator::Min64($op) => $call,
            $crate::RoseOperator::Min96($op) => $call,
            $crate::RoseOperator::Min128($op) => $call,
            $crate::RoseOperator::Heavy64($op) => $call,
            $crate::RoseOperator::Heavy96($op) => $call,
            $crate::RoseOperator::Ring($op) => $call,
        }
    };
}

/// Makes the call `$call`, in which `$op` is the operator that comes down rose trees of the name `$name` for elements
/// of the type `$ty`, at its own type. Calls that start threads are made by this macro, since a
/// method of a trait can't make them.
#[macro_export]
macro_rules! with_rose_down_operator {
    ($name:expr, $ty:expr, $op:ident => $call:expr) => {
        match $crate::RoseDownOperator::of($name, $ty) {
            $crate::RoseDownOperator::PathSum64($op) => $call,
            $crate::RoseDownOperator::PathSum96($op) => $call,
        }
    };
}

/// Makes the visitor's call with the operator that goes up binary trees of this name for elements of this type.
pub fn visit_tree_operator<V: TreeVisitor>(visitor: V, name: TreeName, ty: ElemType) -> V::Out
    requires typed { IsOk (tree_typed name ty) }
    requires ready { V.asks visitor name ty }
    ensures { V.gives visitor name ty result }
{
    with_tree_operator!(name, ty, op => visitor.visit(&op, name, ty))
}

/// Makes the visitor's call with the operator that comes down binary trees of this name for elements of this type.
pub fn visit_down_operator<V: DownVisitor>(visitor: V, name: DownName, ty: ElemType) -> V::Out
    requires typed { IsOk (down_typed name ty) }
    requires ready { V.asks visitor name ty }
    ensures { V.gives visitor name ty result }
{
    with_down_operator!(name, ty, op => visitor.visit(&op, name, ty))
}

/// Makes the visitor's call with the operator that goes up rose trees of this name for elements of this type.
pub fn visit_rose_operator<V: RoseVisitor>(visitor: V, name: RoseName, ty: ElemType) -> V::Out
    requires typed { IsOk (rose_typed name ty) }
    requires ready { V.asks visitor name ty }
    ensures { V.gives visitor name ty result }
{
    with_rose_operator!(name, ty, op => visitor.visit(&op, name, ty))
}

/// Makes the visitor's call with the operator that comes down rose trees of this name for elements of this type.
pub fn visit_rose_down_operator<V: RoseDownVisitor>(
    visitor: V,
    name: RoseDownName,
    ty: ElemType,
) -> V::Out
    requires typed { IsOk (rose_down_typed name ty) }
    requires ready { V.asks visitor name ty }
    ensures { V.gives visitor name ty result }
{
    with_rose_down_operator!(name, ty, op => visitor.visit(&op, name, ty))
}
