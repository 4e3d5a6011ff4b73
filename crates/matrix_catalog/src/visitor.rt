//! Calls that are generic over the operator on matrices, made at the operator of two names and a type.

ghost use Rattle.std.specs.Prelude.{IsTrue, IsOk};
ghost use Rattle.std.specs.Prelude.{List as Seq};
ghost use Rattle.op_laws.specs.declared.width.Width.{Width as Kind};
ghost use Rattle.op_catalog.specs.declared.list_op.ListOp.{ListOp as Name};
ghost use Rattle.op_catalog.specs.Catalog.{abides, typed_of};
ghost use Rattle.op_catalog.specs.Operators.{IsOperatorOf};
ghost use Rattle.matrix_catalog.specs.Pairs.{governing, part_of, IsPairOf};
ghost use Rattle.matrix_catalog.specs.Shapes.{IsEnd};

use crate::same::Same;
use crate::shape::{End, Shape, part};
use op_catalog::{ListOp, with_list_operator};
use op_laws::{Abiding, ElemType, Semi};

/// A call that takes any operator on matrices.
pub trait MatrixVisitor {
    /// What the call answers.
    type Out;

    // What it asks of the names and the type.
    ghost asks: { Self → Name → Name → Seq Kind → Type 0 };

    // What its answer is, by the names and the type.
    ghost gives: { Self → Name → Name → Seq Kind → Self.Out → Type 0 };

    /// The call, with the operator that joins by these two for elements of this type.
    fn visit<A: Abiding>(self, op: &A, down: ListOp, across: ListOp, ty: ElemType) -> Self::Out
        requires ready { asks self down across ty }
        requires operator { IsPairOf (A.takes op.now) (A.gives op.now) (A.finished op.now) (A.lifted op.now) (A.downwards op.now) (A.sideways op.now) down across ty }
        ensures { gives self down across ty result };
}

/// Makes the call `$call`, in which `$op` is the commutative operator on lists of both names for
/// elements of the type `$ty`, at its own type. Calls that start threads are made by this macro and
/// `with_end!`, since a method of a trait can't make them.
#[macro_export]
macro_rules! with_commuting {
    ($down:expr, $across:expr, $ty:expr, $op:ident => $call:expr) => {
        match $crate::Commuting::of($down, $across, $ty) {
            $crate::Commuting::Sum64($op) => $call,
            $crate::Commuting::Sum96($op) => $call,
            $crate::Commuting::Mul($op) => $call,
            $crate::Commuting::Min64($op) => $call,
            $crate::Commuting::Min96($op) => $call,
            $crate::Commuting::Min128($op) => $call,
            $crate::Commuting::Max64($op) => $call,
            $crate::Commuting::Max96($op) => $call,
            $crate::Commuting::Max128($op) => $call,
            $crate::Commuting::And($op) => $call,
            $crate::Commuting::Or($op) => $call,
            $crate::Commuting::Xor($op) => $call,
        }
    };
}

/// Makes the call `$call`, in which `$op` is the operator on matrices that answers the operand
/// `$end`, and joins the other way by the operator on lists `$part`. Where it is called in a
/// function that is generic in the type of `$part`, that function has four arms, and
/// `with_list_operator!` leads to it.
#[macro_export]
macro_rules! with_end {
    ($end:expr, $part:expr, $op:ident => $call:expr) => {
        match $end {
            $crate::End::FirstDown => {
                let $op = $crate::FirstDown::new($part);
                $call
            }
            $crate::End::LastDown => {
                let $op = $crate::LastDown::new($part);
                $call
            }
            $crate::End::FirstAcross => {
                let $op = $crate::FirstAcross::new($part);
                $call
            }
            $crate::End::LastAcross => {
                let $op = $crate::LastAcross::new($part);
                $call
            }
        }
    };
}

// The visitor's call with the operator that answers an operand one way, and joins by this one.
fn visit_end<V: MatrixVisitor, M: Semi + Copy>(
    visitor: V,
    joins: M,
    end: End,
    down: ListOp,
    across: ListOp,
    ty: ElemType,
) -> V::Out
    requires end { IsEnd end down across }
    requires operator { IsOperatorOf (M.takes joins) (M.gives joins) (M.finished joins) (M.lifted joins) (M.combined joins) (part_of down across) ty }
    requires ready { V.asks visitor down across ty }
    ensures { V.gives visitor down across ty result }
{
    with_end!(end, joins, op => visitor.visit(&op, down, across, ty))
}

/// Makes the visitor's call with the operator that joins by these two for elements of this type.
pub fn visit_matrix_operator<V: MatrixVisitor>(
    visitor: V,
    down: ListOp,
    across: ListOp,
    ty: ElemType,
) -> V::Out
    requires abiding { IsTrue (abides down across) }
    requires typed { IsOk (typed_of (governing down across) ty) }
    requires ready { V.asks visitor down across ty }
    ensures { V.gives visitor down across ty result }
{
    match Shape::of(down, across, ty) {
        Shape::Same => {
            with_commuting!(down, across, ty, joins => visitor.visit(&Same::new(joins), down, across, ty))
        }
        Shape::End(end) => {
            with_list_operator!(part(down, across), ty, joins => visit_end(visitor, joins, end, down, across, ty))
        }
    }
}
