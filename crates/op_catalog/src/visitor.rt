//! Calls that are generic over the operator, made at the operator of a name and a type.

ghost use Rattle.std.specs.Prelude.{not, IsTrue, IsOk};
ghost use Rattle.std.specs.Prelude.{List as Seq};
ghost use Rattle.op_laws.specs.declared.width.Width.{Width as Kind};
ghost use Rattle.op_catalog.specs.declared.list_op.ListOp.{ListOp as Name};
ghost use Rattle.op_catalog.specs.Catalog.{is_end, typed_of};
ghost use Rattle.op_catalog.specs.Operators.{IsOperatorOf, IsMonoidOf};

use crate::list_op::ListOp;
use op_laws::{ElemType, Monoid, Semi};

/// A call that takes any operator that has a unit.
pub trait MonoidVisitor {
    /// What the call answers.
    type Out;

    // What it asks of the name and the type.
    ghost asks: { Self → Name → Seq Kind → Type 0 };

    // What its answer is, by the name and the type.
    ghost gives: { Self → Name → Seq Kind → Self.Out → Type 0 };

    /// The call, with the operator of this name for elements of this type.
    fn visit<M: Monoid>(self, op: &M, name: ListOp, ty: ElemType) -> Self::Out
        requires ready { asks self name ty }
        requires operator { IsMonoidOf (M.takes op.now) (M.gives op.now) (M.finished op.now) (M.nothing op.now) (M.lifted op.now) (M.combined op.now) name ty }
        ensures { gives self name ty result };
}

/// A call that takes any operator on lists.
pub trait ListVisitor {
    /// What the call answers.
    type Out;

    // What it asks of the name and the type.
    ghost asks: { Self → Name → Seq Kind → Type 0 };

    // What its answer is, by the name and the type.
    ghost gives: { Self → Name → Seq Kind → Self.Out → Type 0 };

    /// The call, with the operator of this name for elements of this type.
    fn visit<M: Semi>(self, op: &M, name: ListOp, ty: ElemType) -> Self::Out
        requires ready { asks self name ty }
        requires operator { IsOperatorOf (M.takes op.now) (M.gives op.now) (M.finished op.now) (M.lifted op.now) (M.combined op.now) name ty }
        ensures { gives self name ty result };
}

/// Makes the call `$call`, in which `$op` is the operator of the name `$name` for elements of the
/// type `$ty`, at its own type. The operator has a unit. Calls that start threads are made by this
/// macro, since a method of a trait can't make them.
#[macro_export]
macro_rules! with_list_monoid {
    ($name:expr, $ty:expr, $op:ident => $call:expr) => {
        match $crate::ListMonoid::of($name, $ty) {
            $crate::ListMonoid::Sum64($op) => $call,
            $crate::ListMonoid::Sum96($op) => $call,
            $crate::ListMonoid::Mul($op) => $call,
            $crate::ListMonoid::Min64($op) => $call,
            $crate::ListMonoid::Min96($op) => $call,
            $crate::ListMonoid::Min128($op) => $call,
            $crate::ListMonoid::Max64($op) => $call,
            $crate::ListMonoid::Max96($op) => $call,
            $crate::ListMonoid::Max128($op) => $call,
            $crate::ListMonoid::And($op) => $call,
            $crate::ListMonoid::Or($op) => $call,
            $crate::ListMonoid::Xor($op) => $call,
            $crate::ListMonoid::Mss64($op) => $call,
            $crate::ListMonoid::Mss96($op) => $call,
            $crate::ListMonoid::Affine($op) => $call,
        }
    };
}

/// The same for any operator on lists, with or without a unit.
#[macro_export]
macro_rules! with_list_operator {
    ($name:expr, $ty:expr, $op:ident => $call:expr) => {
        match $name {
            $crate::ListOp::First => {
                let $op = $crate::First::new($ty);
                $call
            }
            $crate::ListOp::Last => {
                let $op = $crate::Last::new($ty);
                $call
            }
            _ => $crate::with_list_monoid!($name, $ty, $op => $call),
        }
    };
}

/// Makes the visitor's call with the operator of this name for elements of this type.
pub fn visit_monoid<V: MonoidVisitor>(visitor: V, name: ListOp, ty: ElemType) -> V::Out
    requires typed { IsOk (typed_of name ty) }
    requires unit { IsTrue (not (is_end name)) }
    requires ready { V.asks visitor name ty }
    ensures { V.gives visitor name ty result }
{
    with_list_monoid!(name, ty, op => visitor.visit(&op, name, ty))
}

/// The same, with or without a unit.
pub fn visit_list_operator<V: ListVisitor>(visitor: V, name: ListOp, ty: ElemType) -> V::Out
    requires typed { IsOk (typed_of name ty) }
    requires ready { V.asks visitor name ty }
    ensures { V.gives visitor name ty result }
{
    with_list_operator!(name, ty, op => visitor.visit(&op, name, ty))
}
