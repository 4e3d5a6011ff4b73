//! Types of one number.

ghost use Rattle.std.specs.Prelude.{◌≡◌, [], ◌∷◌, length};

use op_laws::{ElemType, Width};

/// The width of a type of one number.
pub(crate) fn only_width(ty: ElemType) -> Width
    requires { length ty ≡ 1 }
    ensures { ty ≡ result ∷ [] }
{
    ty.at(0)
}
