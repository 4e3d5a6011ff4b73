//! The last element.

ghost use Rattle.std.specs.Prelude.{◌≡◌};
ghost use Rattle.op_laws.specs.Folds.{ReducesSome};
ghost use Rattle.op_catalog.specs.Operators.{IsOperatorOf};
ghost use Rattle.op_catalog.specs.Ends.{last_element, IsOfType};
ghost use Rattle.op_catalog.specs.EndLaws.{end_lift_laws, last_combine_laws};

use crate::list_op::ListOp;
use crate::types::same_type;
use op_laws::{ElemType, Lifted, Semi, Tup};
use std::marker::Model;

/// The last of elements of one type. Contracts see the operator as that type.
#[derive(Clone, Copy, Debug)]
pub struct Last {
    ty: ElemType,
}

impl Model for Last {
    ghost use Rattle.std.specs.Prelude.{List};
    ghost use Rattle.op_laws.specs.declared.width.Width.{Width};

    ghost Value = { List Width };

    ghost view = { λ op. op.ty };

    ghost inverse = { λ ty. record { ty = ty } };
}

impl Last {
    /// The operator for elements of this type. It takes no others.
    pub fn new(ty: ElemType) -> Self
        ensures ty { result ≡ ty }
        ensures reduces { ReducesSome (⟦<Last as Lifted>⟧.takes result) (⟦<Last as Lifted>⟧.finished result)
            (⟦<Last as Lifted>⟧.lifted result) (⟦<Last as Semi>⟧.combined result) last_element }
        ensures operator { IsOperatorOf (⟦<Last as Lifted>⟧.takes result) (⟦<Last as Lifted>⟧.gives result) (⟦<Last as Lifted>⟧.finished result)
            (⟦<Last as Lifted>⟧.lifted result) (⟦<Last as Semi>⟧.combined result) ListOp.Last ty }
    {
        Last { ty }
    }
}

impl Lifted for Last {
    type C = Tup;

    ghost takes = { λ own ty. ty ≡ own };

    ghost gives = { λ _ ty. ty };

    ghost lifted = { λ _ e. e };

    ghost finished = { λ _ c. c };

    ghost fits = { IsOfType };

    fn accepts(&self, ty: ElemType) -> bool {
        same_type(ty, self.ty)
    }

    fn result(&self, ty: ElemType) -> ElemType {
        ty
    }

    #[inline(always)]
    fn lift(&self, e: Tup) -> Tup {
        e
    }

    #[inline(always)]
    fn finish(&self, c: Tup, _n: u32) -> Tup {
        c
    }

    ghost lift_laws = { end_lift_laws };
}

impl Semi for Last {
    ghost combined = { λ _ a b. b };

    #[inline(always)]
    fn combine(&self, _a: Tup, _na: u32, b: Tup, _nb: u32) -> Tup {
        b
    }

    ghost combine_laws = { last_combine_laws };
}
