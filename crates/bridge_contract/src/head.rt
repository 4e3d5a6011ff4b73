//! One own node of a bridge.

use op_laws::Tup;

// A leaf, the hole, or another inner node, with its value.
#[derive(Clone, Copy, Debug)]
pub(crate) enum Head {
    AtEnd(Tup),
    AtStop(Tup),
    AtJoin(Tup),
}
