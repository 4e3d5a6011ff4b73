//! What holds of all bridges of a tree together. These calls do nothing: their clauses are for proofs
//! that distribute bridges by means of their own.

ghost use Rattle.op_laws.specs.Laws.{IsElementOf};
ghost use Rattle.bridge_contract.specs.AllBridges.{EachPartIsItsSubtree, SummariesJoin, WaysJoin};

use op_laws::{DownOp, TreeOp};

/// A bridge's own nodes, with what hangs below its hole, are the subtree at its root.
#[inline(always)]
pub fn parts_are_subtrees()
    ensures { EachPartIsItsSubtree }
{}

/// The summaries of all bridges of a tree may be joined, and `join_up` answers the fold of the
/// subtree at each root.
#[inline(always)]
pub fn summaries_join<K: TreeOp>(_op: &K)
    ensures { SummariesJoin (K.upward _op.now) (IsElementOf (K.takes _op.now)) (K.fits _op.now) (K.fits_hole _op.now) }
{}

/// What all bridges of a tree pass down may be joined, and `join_down` answers the value that comes
/// down to each root, which fits what `expand_down` asks.
#[inline(always)]
pub fn ways_join<D: DownOp>(_op: &D)
    ensures { WaysJoin (D.downward _op.now) (IsElementOf (D.takes _op.now)) (D.fits _op.now) (D.fits_way _op.now) }
{}
