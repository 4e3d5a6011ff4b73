//! The depth of scalars.

ghost use Rattle.std.specs.Prelude.{◌<◌, ◌≤◌, IsTrue, IsFalse};
ghost use Rattle.scalar_expr.specs.Expr.{depth_of};
ghost use Rattle.scalar_expr.specs.Views.{expr_of};

use crate::scalar::Scalar;

// Whether the depth is over this one. It goes no deeper than so far.
pub(crate) fn is_deeper(s: &Scalar, depth: u32) -> bool
    ensures deeper { IsTrue result → depth < depth_of (expr_of s.now) }
    ensures shallow { IsFalse result → depth_of (expr_of s.now) ≤ depth }
{
    if depth == 0 {
        return true;
    }
    match s {
        Scalar::Lit(_) | Scalar::Part(_) => false,
        Scalar::Add(a, b)
        | Scalar::Sub(a, b)
        | Scalar::Mul(a, b)
        | Scalar::Min(a, b)
        | Scalar::Max(a, b)
        | Scalar::Less(a, b)
        | Scalar::Same(a, b)
        | Scalar::And(a, b)
        | Scalar::Or(a, b)
        | Scalar::Xor(a, b) => is_deeper(a, depth - 1) || is_deeper(b, depth - 1),
        Scalar::Cond(c, a, b) => {
            is_deeper(c, depth - 1) || is_deeper(a, depth - 1) || is_deeper(b, depth - 1)
        }
        Scalar::Wrap(a) => is_deeper(a, depth - 1),
    }
}
