//! Elements of one number of w64.

ghost use Rattle.std.specs.Prelude.{◌≡◌, ◌↔◌, IsTrue};
ghost use Rattle.op_laws.specs.Laws.{IsElementOf};
ghost use Rattle.op_catalog.specs.Numbers.{number_of};
ghost use Rattle.op_catalog.specs.Words.{IsWordType};

use op_laws::{ElemType, Tup, Width};

// Whether this is the type of one number of w64.
pub(crate) fn is_word_type(ty: ElemType) -> bool
    ensures { IsTrue result ↔ IsWordType ty }
{
    ty.len() == 1 && ty.at(0) == Width::W64
}

// The number of an element of that type.
#[inline(always)]
pub(crate) fn word_of(e: Tup) -> i64
    requires { IsElementOf IsWordType e }
    ensures { result ≡ number_of e }
{
    e.at(0) as i64
}
