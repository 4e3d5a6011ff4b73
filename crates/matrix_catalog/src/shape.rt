//! Which operator on matrices joins downwards and across by two operators on lists.

ghost use Rattle.std.specs.Prelude.{◌≡◌, IsTrue, IsOk};
ghost use Rattle.op_catalog.specs.Catalog.{abides, typed_of};
ghost use Rattle.matrix_catalog.specs.Pairs.{governing, part_of};
ghost use Rattle.matrix_catalog.specs.Shapes.{IsShape};

use op_catalog::ListOp;
use op_laws::ElemType;

/// The operand that an operator on matrices answers one way.
#[derive(Clone, Copy, Debug, PartialEq, Eq)]
pub enum End {
    FirstDown,
    LastDown,
    FirstAcross,
    LastAcross,
}

/// Which operator on matrices it is.
#[derive(Clone, Copy, Debug, PartialEq, Eq)]
pub enum Shape {
    /// It joins both ways by one commutative operator.
    Same,
    /// It answers an operand one way, and joins the other way by `part`.
    End(End),
}

impl Shape {
    /// The operator for two that abide. Where both are `First` or `Last`, it is the one that
    /// answers an operand downwards, and joins by the operator across.
    pub fn of(down: ListOp, across: ListOp, _ty: ElemType) -> Shape
        requires abiding { IsTrue (abides down across) }
        requires typed { IsOk (typed_of (governing down across) _ty) }
        ensures { IsShape result down across _ty }
    {
        match (down, across) {
            (ListOp::First, _) => Shape::End(End::FirstDown),
            (ListOp::Last, _) => Shape::End(End::LastDown),
            (_, ListOp::First) => Shape::End(End::FirstAcross),
            (_, ListOp::Last) => Shape::End(End::LastAcross),
            _ => Shape::Same,
        }
    }
}

/// The operator on lists that joins the one way, where the other way answers an operand.
pub fn part(down: ListOp, across: ListOp) -> ListOp
    ensures { result ≡ part_of down across }
{
    match down {
        ListOp::First | ListOp::Last => across,
        _ => down,
    }
}
