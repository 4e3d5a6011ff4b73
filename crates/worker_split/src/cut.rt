//! How work is cut and shared out.
ghost use Rattle.std.specs.Prelude.{◌≤◌};
ghost use Rattle.worker_split.specs.declared.board.TheConstants.{MAX_WORKERS};

/// How many elements, rows or nodes a block has at most, and how many workers take the blocks.
/// Both are at least 1, and there are at most `MAX_WORKERS` workers.
#[derive(Clone, Copy, PartialEq, Eq, Debug)]
pub struct Cut {
    pub block: u32,
    pub workers: u32,
    ghost some_block: { 1 ≤ block },
    ghost some_workers: { 1 ≤ workers },
    ghost few_workers: { workers ≤ MAX_WORKERS },
}
