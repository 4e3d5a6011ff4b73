//! Functions with the columns of their words.
ghost use Rattle.std.specs.Prelude.{◌<◌, ◌^◌};
ghost use Rattle.scalar_expr.specs.Expr.{nodes_in};
ghost use Rattle.scalar_expr.specs.Views.{scalars_of};

use scalar_expr::{Func, Scalar};

/// A scalar, with the columns of its nodes in postorder.
#[derive(Drop)]
pub(crate) struct SpelledScalar {
    pub(crate) scalar: Scalar,
    pub(crate) columns: Vec<u32>,
}

/// A function, with the columns of its nodes in postorder and that of its first word.
#[derive(Drop)]
pub struct SpelledFunction {
    pub func: Func,
    pub columns: Vec<u32>,
    pub at: u32,
    ghost few: { nodes_in (scalars_of func) < 2 ^ 32 },
}
