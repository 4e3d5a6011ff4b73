//! The last operand downwards, and an operator on lists across.

ghost use Rattle.std.specs.Prelude.{◌≡◌};
ghost use Rattle.matrix_catalog.specs.AbideLaws.{last_down_abide_laws};
ghost use Rattle.matrix_catalog.specs.Members.{IsLiftedAs};
ghost use Rattle.matrix_catalog.specs.Pairs.{IsPairOf};
ghost use Rattle.op_catalog.specs.Operators.{IsOperatorOf};

use op_catalog::ListOp;
use op_laws::{Abiding, ElemType, Lifted, Semi, Tup};

/// Answers the last operand downwards, and joins across by an operator on lists.
#[derive(Clone, Copy, Debug)]
pub struct LastDown<M> {
    part: M,
}

impl<M: Semi> LastDown<M> {
    /// The operator that joins across by this one.
    pub fn new(m: M) -> Self
        ensures lifted { IsLiftedAs (⟦<LastDown<M> as Lifted>⟧.takes result) (⟦<LastDown<M> as Lifted>⟧.gives result) (⟦<LastDown<M> as Lifted>⟧.lifted result) (⟦<LastDown<M> as Lifted>⟧.finished result)
            (⟦<LastDown<M> as Lifted>⟧.fits result) (M.takes m) (M.gives m) (M.lifted m) (M.finished m) (M.fits m) }
        ensures down { (a b : _) → ⟦<LastDown<M> as Abiding>⟧.downwards result a b ≡ b }
        ensures across { (a b : _) → ⟦<LastDown<M> as Abiding>⟧.sideways result a b ≡ M.combined m a b }
        ensures pair { (across : _) (ty : _) → IsOperatorOf (M.takes m) (M.gives m) (M.finished m) (M.lifted m) (M.combined m) across ty
            → IsPairOf (⟦<LastDown<M> as Lifted>⟧.takes result) (⟦<LastDown<M> as Lifted>⟧.gives result) (⟦<LastDown<M> as Lifted>⟧.finished result) (⟦<LastDown<M> as Lifted>⟧.lifted result)
            (⟦<LastDown<M> as Abiding>⟧.downwards result) (⟦<LastDown<M> as Abiding>⟧.sideways result) ListOp.Last across ty }
    {
        LastDown { part: m }
    }
}

impl<M: Semi> Lifted for LastDown<M> {
    type C = M::C;

    ghost takes = { λ op. M.takes op.part };

    ghost gives = { λ op. M.gives op.part };

    ghost lifted = { λ op. M.lifted op.part };

    ghost finished = { λ op. M.finished op.part };

    ghost fits = { λ op. M.fits op.part };

    fn accepts(&self, ty: ElemType) -> bool {
        self.part.accepts(ty)
    }

    fn result(&self, ty: ElemType) -> ElemType {
        self.part.result(ty)
    }

    #[inline(always)]
    fn lift(&self, e: Tup) -> M::C {
        self.part.lift(e)
    }

    #[inline(always)]
    fn finish(&self, c: M::C, n: u32) -> Tup {
        self.part.finish(c, n)
    }

    ghost lift_laws = { λ op. M.lift_laws op.part };
}

impl<M: Semi> Abiding for LastDown<M> {
    ghost downwards = { λ op. λ a b. b };

    ghost sideways = { λ op. M.combined op.part };

    #[inline(always)]
    fn down(&self, _a: M::C, _na: u32, b: M::C, _nb: u32) -> M::C {
        b
    }

    #[inline(always)]
    fn across(&self, a: M::C, na: u32, b: M::C, nb: u32) -> M::C {
        self.part.combine(a, na, b, nb)
    }

    ghost abide_laws = { λ op. last_down_abide_laws (M.lift_laws op.part) (M.combine_laws op.part) };
}
