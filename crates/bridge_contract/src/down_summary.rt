//! What a bridge passes down.

/// What a bridge passes down: nothing, where it has no hole, or the ways from its root to the left
/// and to the right child of its hole. `n` is the weight of each, 2 for each node on the path from
/// the root to the hole, both counted.
#[derive(Clone, Copy, Debug)]
pub enum DownSummary<D> {
    End,
    Both { l: D, r: D, n: u32 },
}
