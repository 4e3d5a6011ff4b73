//! Places of a heap.

ghost use Rattle.op_catalog.specs.Words.{IsWord};
ghost use Rattle.op_catalog.specs.Lines.{IsLine};
ghost use Rattle.tree_aux.specs.SumTrees.{single, IsAny};
ghost use Rattle.tree_aux.specs.ComingDown.{ComesDown};
ghost use Rattle.tree_aux.specs.WordTrees.{word_type, heap_down, heap_left, heap_right};
ghost use Rattle.tree_aux.specs.WordTreeLaws.{heap_down_laws};

use crate::words::image_of;
use op_catalog::{Affine, Line};
use op_laws::{DownOp, ElemType, Semi, Tup, Width};

/// The places of a heap, modulo 2^64, in a binary tree of elements of any type: 2c and 2c + 1 below
/// c. The result has one number of w64.
#[derive(Clone, Copy, Debug)]
pub struct HeapIndex(Affine);

impl HeapIndex {
    /// The operator.
    pub fn new() -> Self
        ensures { ComesDown (⟦<HeapIndex as DownOp>⟧.takes result) (⟦<HeapIndex as DownOp>⟧.finished result) (⟦<HeapIndex as DownOp>⟧.downward result) heap_left heap_right }
    {
        HeapIndex(Affine::new())
    }
}

impl DownOp for HeapIndex {
    type V = i64;

    type D = Line;

    ghost takes = { λ _. IsAny };

    ghost gives = { λ _ _. word_type };

    ghost downward = { λ _. heap_down };

    ghost finished = { λ _. single };

    ghost fits = { λ _. IsWord };

    ghost fits_way = { λ _. IsLine };

    fn accepts(&self, _ty: ElemType) -> bool {
        true
    }

    fn result(&self, _ty: ElemType) -> ElemType {
        ElemType::one(Width::W64)
    }

    #[inline(always)]
    fn start(&self, c: i64) -> i64 {
        c
    }

    #[inline(always)]
    fn phi_l(&self, _b: Tup) -> Line {
        Line {
            scale: 2,
            offset: 0,
        }
    }

    #[inline(always)]
    fn phi_r(&self, _b: Tup) -> Line {
        Line {
            scale: 2,
            offset: 1,
        }
    }

    #[inline(always)]
    fn psi_u(&self, a: Line, na: u32, b: Line, nb: u32) -> Line {
        self.0.combine(a, na, b, nb)
    }

    #[inline(always)]
    fn psi_d(&self, c: i64, _nc: u32, d: Line, _nd: u32) -> i64 {
        image_of(d, c)
    }

    #[inline(always)]
    fn finish(&self, c: i64, _n: u32) -> Tup {
        Tup::one(c as i128)
    }

    ghost downward_laws = { λ _. heap_down_laws };
}
