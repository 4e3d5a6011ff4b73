//! What holds of the definitions, for whoever works on bridges.

ghost use Rattle.m_bridges.specs.Numbered.{EachBridgeIsNumbered, EachPlaceIsNumbered};

/// The own places of a bridge, numbered, are those that it owns, each once, in ascending order; and
/// those of all bridges are the places of the tree. It does nothing: its clauses are for proofs that
/// fill the own nodes of bridges and put them together.
#[inline(always)]
pub fn own_places_are_numbered()
    ensures bridge { EachBridgeIsNumbered }
    ensures place { EachPlaceIsNumbered }
{}
