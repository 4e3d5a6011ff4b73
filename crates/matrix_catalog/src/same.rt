//! The same operator downwards and across.

ghost use Rattle.std.specs.Prelude.{◌≡◌};
ghost use Rattle.matrix_catalog.specs.AbideLaws.{same_abide_laws};
ghost use Rattle.matrix_catalog.specs.Members.{IsLiftedAs};
ghost use Rattle.matrix_catalog.specs.Pairs.{IsPairOf};
ghost use Rattle.matrix_catalog.specs.Operators.{IsCommutingOf};

use op_laws::{Abiding, Commutative, ElemType, Lifted, Tup};

/// Joins downwards and across by one commutative operator on lists.
#[derive(Clone, Copy, Debug)]
pub struct Same<M> {
    part: M,
}

impl<M: Commutative> Same<M> {
    /// The operator that joins by this one.
    pub fn new(m: M) -> Self
        ensures lifted { IsLiftedAs (⟦<Same<M> as Lifted>⟧.takes result) (⟦<Same<M> as Lifted>⟧.gives result) (⟦<Same<M> as Lifted>⟧.lifted result) (⟦<Same<M> as Lifted>⟧.finished result)
            (⟦<Same<M> as Lifted>⟧.fits result) (M.takes m) (M.gives m) (M.lifted m) (M.finished m) (M.fits m) }
        ensures down { (a b : _) → ⟦<Same<M> as Abiding>⟧.downwards result a b ≡ M.combined m a b }
        ensures across { (a b : _) → ⟦<Same<M> as Abiding>⟧.sideways result a b ≡ M.combined m a b }
        ensures pair { (down across : _) (ty : _) → IsCommutingOf (M.takes m) (M.gives m) (M.finished m) (M.lifted m) (M.combined m) down across ty
            → IsPairOf (⟦<Same<M> as Lifted>⟧.takes result) (⟦<Same<M> as Lifted>⟧.gives result) (⟦<Same<M> as Lifted>⟧.finished result) (⟦<Same<M> as Lifted>⟧.lifted result)
            (⟦<Same<M> as Abiding>⟧.downwards result) (⟦<Same<M> as Abiding>⟧.sideways result) down across ty }
    {
        Same { part: m }
    }
}

impl<M: Commutative> Lifted for Same<M> {
    type C = M::C;

    ghost takes = { λ op. M.takes op.part };

    ghost gives = { λ op. M.gives op.part };

    ghost lifted = { λ op. M.lifted op.part };

    ghost finished = { λ op. M.finished op.part };

    ghost fits = { λ op. M.fits op.part };

    fn accepts(&self, ty: ElemType) -> bool {
        self.part.accepts(ty)
    }

    fn result(&self, ty: ElemType) -> ElemType {
        self.part.result(ty)
    }

    #[inline(always)]
    fn lift(&self, e: Tup) -> M::C {
        self.part.lift(e)
    }

    #[inline(always)]
    fn finish(&self, c: M::C, n: u32) -> Tup {
        self.part.finish(c, n)
    }

    ghost lift_laws = { λ op. M.lift_laws op.part };
}

impl<M: Commutative> Abiding for Same<M> {
    ghost downwards = { λ op. M.combined op.part };

    ghost sideways = { λ op. M.combined op.part };

    #[inline(always)]
    fn down(&self, a: M::C, na: u32, b: M::C, nb: u32) -> M::C {
        self.part.combine(a, na, b, nb)
    }

    #[inline(always)]
    fn across(&self, a: M::C, na: u32, b: M::C, nb: u32) -> M::C {
        self.part.combine(a, na, b, nb)
    }

    ghost abide_laws = { λ op. same_abide_laws (M.combine_laws op.part) (M.commute_laws op.part) };
}
