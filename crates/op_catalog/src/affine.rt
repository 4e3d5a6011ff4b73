//! Affine functions.

ghost use Rattle.std.specs.Prelude.{◌≡◌, [], ◌∷◌, pos};
ghost use Rattle.op_laws.specs.Folds.{Reduces};
ghost use Rattle.op_catalog.specs.Lines.{line, line_of, after_line, pair_of, IsLineType, IsLine, affine_of};
ghost use Rattle.op_catalog.specs.LineLaws.{line_lift_laws, line_combine_laws, line_unit_laws};

use op_laws::{ElemType, Lifted, Monoid, Semi, Tup, Width};

/// The function that maps y to `scale * y + offset`, modulo 2^64.
#[derive(Clone, Copy, Debug, PartialEq, Eq)]
pub struct Line {
    pub scale: i64,
    pub offset: i64,
}

/// The composition of affine functions in order, modulo 2^64: an element (a, b) of two numbers of
/// w64 maps y to a·y + b. Of no element it is (1, 0).
#[derive(Clone, Copy, Debug)]
pub struct Affine(());

impl Affine {
    /// The operator.
    pub fn new() -> Self
        ensures { Reduces (⟦<Affine as Lifted>⟧.takes result) (⟦<Affine as Lifted>⟧.finished result) (⟦<Affine as Monoid>⟧.nothing result)
            (⟦<Affine as Lifted>⟧.lifted result) (⟦<Affine as Semi>⟧.combined result) affine_of }
    {
        Affine(())
    }
}

impl Lifted for Affine {
    type C = Line;

    ghost takes = { λ _. IsLineType };

    ghost gives = { λ _ ty. ty };

    ghost lifted = { λ _. line_of };

    ghost finished = { λ _. pair_of };

    ghost fits = { λ _. IsLine };

    fn accepts(&self, ty: ElemType) -> bool {
        ty.len() == 2 && ty.at(0) == Width::W64 && ty.at(1) == Width::W64
    }

    fn result(&self, ty: ElemType) -> ElemType {
        ty
    }

    #[inline(always)]
    fn lift(&self, e: Tup) -> Line {
        Line {
            scale: e.at(0) as i64,
            offset: e.at(1) as i64,
        }
    }

    #[inline(always)]
    fn finish(&self, c: Line, _n: u32) -> Tup {
        Tup::two(c.scale as i128, c.offset as i128)
    }

    ghost lift_laws = { λ _. line_lift_laws };
}

impl Semi for Affine {
    ghost combined = { λ _. after_line };

    #[inline(always)]
    fn combine(&self, a: Line, _na: u32, b: Line, _nb: u32) -> Line {
        Line {
            scale: a.scale.wrapping_mul(b.scale),
            offset: b.scale.wrapping_mul(a.offset).wrapping_add(b.offset),
        }
    }

    ghost combine_laws = { λ _. line_combine_laws };
}

impl Monoid for Affine {
    ghost nothing = { λ _. line (pos 1) (pos 0) };

    #[inline(always)]
    fn unit(&self) -> Line {
        Line {
            scale: 1,
            offset: 0,
        }
    }

    ghost unit_laws = { λ _. line_unit_laws };
}
