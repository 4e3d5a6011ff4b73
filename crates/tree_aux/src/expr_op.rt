//! Values of expressions.

ghost use Rattle.std.specs.Prelude.{◌≡◌, ◌+◌, ◌≤◌};
ghost use Rattle.op_laws.specs.TreeFolds.{ReducesTree};
ghost use Rattle.op_catalog.specs.Words.{IsWordType, IsWord};
ghost use Rattle.op_catalog.specs.Lines.{IsLine};
ghost use Rattle.tree_aux.specs.SumTrees.{single};
ghost use Rattle.tree_aux.specs.WordTrees.{arithmetic_of, worked, operand, expr_up, expr_hole, tree_expr, IsOpenExpr};
ghost use Rattle.tree_aux.specs.WordTreeLaws.{expr_up_laws};

use crate::words::{image_of, product, sum};
use op_catalog::{Affine, Line, Mul};
use op_laws::{ElemType, Lifted, MAX_ELEMENTS, Monoid, Semi, TreeOp, Tup};

/// What a node does with the values of its children, modulo 2^64.
#[derive(Clone, Copy, Debug, PartialEq, Eq)]
pub enum Arithmetic {
    Plus,
    Times,
}

/// A node whose children's values aren't known yet: the function of its line, of what its arithmetic
/// makes of the two.
#[derive(Clone, Copy, Debug, PartialEq, Eq)]
pub struct OpenExpr {
    pub arithmetic: Arithmetic,
    pub line: Line,
}

/// The value of an expression, modulo 2^64, on a binary tree of one number of w64: a node of value
/// 0 adds the values of its children, and any other multiplies them.
#[derive(Clone, Copy, Debug)]
pub struct ExprOp(Mul);

impl ExprOp {
    /// The operator.
    pub fn new() -> Self
        ensures { ReducesTree (⟦<ExprOp as TreeOp>⟧.takes result) (⟦<ExprOp as TreeOp>⟧.finished result) (⟦<ExprOp as TreeOp>⟧.upward result) (λ t. single (tree_expr t)) }
    {
        ExprOp(Mul::new())
    }
}

// What a node with this number does.
#[inline(always)]
fn kind_of(b: i64) -> Arithmetic
    ensures { result ≡ arithmetic_of b }
{
    if b == 0 {
        Arithmetic::Plus
    } else {
        Arithmetic::Times
    }
}

#[inline(always)]
fn work(arithmetic: Arithmetic, l: i64, r: i64) -> i64
    ensures { result ≡ worked arithmetic l r }
{
    match arithmetic {
        Arithmetic::Plus => sum(l, r),
        Arithmetic::Times => product(l, r),
    }
}

// The function of the one operand, where the other is known.
#[inline(always)]
fn line_of(arithmetic: Arithmetic, r: i64) -> Line
    ensures { result ≡ operand arithmetic r }
{
    match arithmetic {
        Arithmetic::Plus => Line {
            scale: 1,
            offset: r,
        },
        Arithmetic::Times => Line {
            scale: r,
            offset: 0,
        },
    }
}

// The inner node h below the outer one g, whose other child has the value r.
#[inline(always)]
fn below(h: OpenExpr, _nh: u32, g: OpenExpr, _ng: u32, r: i64, _nr: u32) -> OpenExpr
    requires few { _nh + _ng + _nr ≤ MAX_ELEMENTS }
    requires inner { IsOpenExpr h _nh }
    requires outer { IsOpenExpr g _ng }
    requires other { IsWord r _nr }
    ensures { result ≡ expr_hole h g r }
{
    let affine = Affine::new();
    let inner = affine.combine(h.line, _nh, line_of(g.arithmetic, r), _nr);
    OpenExpr {
        arithmetic: h.arithmetic,
        line: affine.combine(inner, _nh + _nr, g.line, _ng),
    }
}

impl TreeOp for ExprOp {
    type V = i64;

    type G = OpenExpr;

    ghost takes = { λ _. IsWordType };

    ghost gives = { λ _ ty. ty };

    ghost upward = { λ _. expr_up };

    ghost finished = { λ _. single };

    ghost fits = { λ _. IsWord };

    ghost fits_hole = { λ _. IsOpenExpr };

    fn accepts(&self, ty: ElemType) -> bool {
        self.0.accepts(ty)
    }

    fn result(&self, ty: ElemType) -> ElemType {
        self.0.result(ty)
    }

    #[inline(always)]
    fn leaf(&self, e: Tup) -> i64 {
        self.0.lift(e)
    }

    #[inline(always)]
    fn phi(&self, b: Tup) -> OpenExpr {
        OpenExpr {
            arithmetic: kind_of(self.0.lift(b)),
            line: Affine::new().unit(),
        }
    }

    #[inline(always)]
    fn psi_n(&self, l: i64, _nl: u32, g: OpenExpr, _ng: u32, r: i64, _nr: u32) -> i64 {
        image_of(g.line, work(g.arithmetic, l, r))
    }

    #[inline(always)]
    fn psi_l(&self, l: OpenExpr, nl: u32, g: OpenExpr, ng: u32, r: i64, nr: u32) -> OpenExpr {
        below(l, nl, g, ng, r, nr)
    }

    #[inline(always)]
    fn psi_r(&self, l: i64, nl: u32, g: OpenExpr, ng: u32, r: OpenExpr, nr: u32) -> OpenExpr {
        below(r, nr, g, ng, l, nl)
    }

    #[inline(always)]
    fn finish(&self, v: i64, n: u32) -> Tup {
        self.0.finish(v, n)
    }

    ghost upward_laws = { λ _. expr_up_laws };
}
