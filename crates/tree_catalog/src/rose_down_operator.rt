//! The operator that comes down rose trees, at each width.

ghost use Rattle.std.specs.Prelude.{IsOk};
ghost use Rattle.tree_names.specs.Names.{rose_down_typed};
ghost use Rattle.tree_catalog.specs.RoseDownOperators.{IsRoseDownOperator};

use crate::width::only_width;
use op_laws::{ElemType, Width};
use tree_aux::RPath;
use tree_names::RoseDownName;

/// An operator at its own type. `with_rose_down_operator!` makes a call at it.
#[derive(Clone, Copy, Debug)]
pub enum RoseDownOperator {
    PathSum64(RPath<64>),
    PathSum96(RPath<96>),
}

impl RoseDownOperator {
    /// The operator of this name for elements of this type.
    pub fn of(name: RoseDownName, ty: ElemType) -> RoseDownOperator
        requires { IsOk (rose_down_typed name ty) }
        ensures { IsRoseDownOperator result name ty }
    {
        match name {
            RoseDownName::PathSum => path_sum_at(ty),
        }
    }
}

fn path_sum_at(ty: ElemType) -> RoseDownOperator
    requires { IsOk (rose_down_typed RoseDownName.PathSum ty) }
    ensures { IsRoseDownOperator result RoseDownName.PathSum ty }
{
    match only_width(ty) {
        Width::W64 => RoseDownOperator::PathSum64(RPath::new()),
        Width::W96 => RoseDownOperator::PathSum96(RPath::new()),
        Width::W128 => unreachable!(),
    }
}
