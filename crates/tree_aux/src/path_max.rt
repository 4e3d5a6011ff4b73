//! Greatest values along the way from the root.

ghost use Rattle.std.specs.Prelude.{◌≡◌, ◌⊎◌, [], ◌∷◌};
ghost use Rattle.op_catalog.specs.Bounds.{IsBounded, IsInWidth};
ghost use Rattle.tree_aux.specs.ComingDown.{ComesDown};
ghost use Rattle.tree_aux.specs.BoundTrees.{path_max_down, max_step};
ghost use Rattle.tree_aux.specs.BoundTreeLaws.{path_max_down_laws};

use op_catalog::Max;
use op_laws::{DownOp, ElemType, Lifted, Tup};

/// The greatest of the values above a node and of the number at the root, in a binary tree of one
/// number of W bits, where W is 64, 96 or 128.
#[derive(Clone, Copy, Debug)]
pub struct PathMax<const W: u32>(Max<W>);

impl<const W: u32> PathMax<W> {
    /// The operator.
    pub fn new() -> Self
        requires { (W ≡ 64) ⊎ (W ≡ 96) ⊎ (W ≡ 128) }
        ensures { ComesDown (⟦<PathMax<W> as DownOp>⟧.takes result) (⟦<PathMax<W> as DownOp>⟧.finished result) (⟦<PathMax<W> as DownOp>⟧.downward result) max_step max_step }
    {
        PathMax(Max::new())
    }
}

impl<const W: u32> DownOp for PathMax<W> {
    type V = i128;

    type D = i128;

    ghost takes = { λ _. IsBounded W };

    ghost gives = { λ _ ty. ty };

    ghost downward = { λ _. path_max_down };

    ghost finished = { λ _. (λ c. c ∷ []) };

    ghost fits = { λ _. IsInWidth W };

    ghost fits_way = { λ _. IsInWidth W };

    fn accepts(&self, ty: ElemType) -> bool {
        self.0.accepts(ty)
    }

    fn result(&self, ty: ElemType) -> ElemType {
        self.0.result(ty)
    }

    #[inline(always)]
    fn start(&self, c: i64) -> i128 {
        c as i128
    }

    #[inline(always)]
    fn phi_l(&self, b: Tup) -> i128 {
        self.0.lift(b)
    }

    #[inline(always)]
    fn phi_r(&self, b: Tup) -> i128 {
        self.0.lift(b)
    }

    #[inline(always)]
    fn psi_u(&self, a: i128, _na: u32, b: i128, _nb: u32) -> i128 {
        a.max(b)
    }

    #[inline(always)]
    fn psi_d(&self, c: i128, _nc: u32, d: i128, _nd: u32) -> i128 {
        c.max(d)
    }

    #[inline(always)]
    fn finish(&self, c: i128, n: u32) -> Tup {
        self.0.finish(c, n)
    }

    ghost downward_laws = { λ _. path_max_down_laws W };
}
