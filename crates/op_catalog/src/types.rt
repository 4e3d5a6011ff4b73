//! Types that are the same.

ghost use Rattle.std.specs.Prelude.{◌≡◌, ◌↔◌, IsTrue};

use op_laws::ElemType;

// Whether the two types have the same widths in the same order.
pub(crate) fn same_type(a: ElemType, b: ElemType) -> bool
    ensures { IsTrue result ↔ (a ≡ b) }
{
    if a.len() != b.len() {
        return false;
    }
    for i in 0..a.len() {
        if a.at(i) != b.at(i) {
            return false;
        }
    }
    true
}
