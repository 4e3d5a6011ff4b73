//! What a bridge passes up.

/// What a bridge passes up: a value, or what its own nodes are to the values of the two subtrees
/// below its hole. `n` is its weight, the count of its own nodes.
#[derive(Clone, Copy, Debug)]
pub enum Summary<V, G> {
    Value { v: V, n: u32 },
    Hole { g: G, n: u32 },
}
