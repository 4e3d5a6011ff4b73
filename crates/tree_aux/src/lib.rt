//! The operators on binary trees and rose trees.
#![tactic(auto)]

mod best_sub;
mod expr_op;
mod heap_index;
mod heavy;
mod options;
mod path_max;
mod path_sum;
mod pre;
mod r_heavy;
mod r_max;
mod r_min;
mod r_path;
mod r_ring;
mod r_sum;
mod sums;
mod t_max;
mod t_min;
mod t_sum;
mod turns;
mod words;

pub use best_sub::{BestSub, OpenSubtrees, SubtreeSums};
pub use expr_op::{Arithmetic, ExprOp, OpenExpr};
pub use heap_index::HeapIndex;
pub use heavy::{Heavy, OpenHeavy};
pub use path_max::PathMax;
pub use path_sum::PathSum;
pub use pre::Pre;
pub use r_heavy::{OpenPaths, RHeavy};
pub use r_max::RMax;
pub use r_min::RMin;
pub use r_path::RPath;
pub use r_ring::{OpenRing, RRing};
pub use r_sum::RSum;
pub use t_max::TMax;
pub use t_min::TMin;
pub use t_sum::TSum;
pub use turns::Turns;
