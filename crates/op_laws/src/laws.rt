//! What holds of the definitions. These calls do nothing: their clauses are for proofs above.

ghost use Rattle.op_laws.specs.Shapes.{EachKeepsShape, EachIsByChildren};
ghost use Rattle.op_laws.specs.Cuts.{AreCut};

use crate::operator::Abiding;

/// The skeletons on binary trees keep the shape of a tree, and give its columns their values.
#[inline(always)]
pub fn shapes_are_kept()
    ensures { EachKeepsShape }
{}

/// A rose tree is a value with a list of rose trees, and its fold, its values and what comes down it
/// go by these.
#[inline(always)]
pub fn roses_go_by_children()
    ensures { EachIsByChildren }
{}

/// A matrix may be cut between any two rows and any two columns: its fold is that of its parts,
/// joined downwards or across.
#[inline(always)]
pub fn matrices_are_cut<A: Abiding>(_op: &A)
    ensures { AreCut (A.takes _op.now) (A.lifted _op.now) (A.downwards _op.now) (A.sideways _op.now) }
{}
