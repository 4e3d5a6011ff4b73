//! How work is cut.

ghost use Rattle.std.specs.Prelude.{◌≡◌, ◌≤◌};
ghost use Rattle.worker_split.specs.declared.board.TheConstants.{MAX_WORKERS};

use worker_split::Cut;

/// How work is cut: the most nodes of a bridge, the elements of a block or of a block's side, the
/// workers.
#[derive(Clone, Copy, Debug, PartialEq, Eq)]
pub struct Settings {
    pub m: u32,
    pub block: u32,
    pub workers: u32,
}

impl Settings {
    /// How lists are cut.
    pub fn cut(self) -> Cut
        requires block { 1 ≤ self.block }
        requires some_workers { 1 ≤ self.workers }
        requires few_workers { self.workers ≤ MAX_WORKERS }
        ensures block { result.block ≡ self.block }
        ensures workers { result.workers ≡ self.workers }
    {
        Cut {
            block: self.block,
            workers: self.workers,
        }
    }
}
