//! The operators that come down binary trees, each at its width.

ghost use Rattle.std.specs.Prelude.{IsOk};
ghost use Rattle.tree_names.specs.Names.{down_typed};
ghost use Rattle.tree_catalog.specs.DownOperators.{IsDownOperator};

use crate::width::only_width;
use op_laws::{ElemType, Width};
use tree_aux::{HeapIndex, PathMax, PathSum, Pre, Turns};
use tree_names::DownName;

/// An operator at its own type. `with_down_operator!` makes a call at it.
#[derive(Clone, Copy, Debug)]
pub enum DownOperator {
    PathSum64(PathSum<64>),
    PathSum96(PathSum<96>),
    PathMax64(PathMax<64>),
    PathMax96(PathMax<96>),
    PathMax128(PathMax<128>),
    Turns(Turns),
    HeapIndex(HeapIndex),
    Pre64(Pre<64>),
    Pre96(Pre<96>),
}

impl DownOperator {
    /// The operator of this name for elements of this type.
    pub fn of(name: DownName, ty: ElemType) -> DownOperator
        requires { IsOk (down_typed name ty) }
        ensures { IsDownOperator result name ty }
    {
        match name {
            DownName::PathSum => path_sum_at(ty),
            DownName::PathMax => path_max_at(ty),
            DownName::Turns => DownOperator::Turns(Turns::new()),
            DownName::HeapIndex => DownOperator::HeapIndex(HeapIndex::new()),
            DownName::Pre => pre_at(ty),
        }
    }
}

fn path_sum_at(ty: ElemType) -> DownOperator
    requires { IsOk (down_typed DownName.PathSum ty) }
    ensures { IsDownOperator result DownName.PathSum ty }
{
    match only_width(ty) {
        Width::W64 => DownOperator::PathSum64(PathSum::new()),
        Width::W96 => DownOperator::PathSum96(PathSum::new()),
        Width::W128 => unreachable!(),
    }
}

fn path_max_at(ty: ElemType) -> DownOperator
    requires { IsOk (down_typed DownName.PathMax ty) }
    ensures { IsDownOperator result DownName.PathMax ty }
{
    match only_width(ty) {
        Width::W64 => DownOperator::PathMax64(PathMax::new()),
        Width::W96 => DownOperator::PathMax96(PathMax::new()),
        Width::W128 => DownOperator::PathMax128(PathMax::new()),
    }
}

fn pre_at(ty: ElemType) -> DownOperator
    requires { IsOk (down_typed DownName.Pre ty) }
    ensures { IsDownOperator result DownName.Pre ty }
{
    match only_width(ty) {
        Width::W64 => DownOperator::Pre64(Pre::new()),
        Width::W96 => DownOperator::Pre96(Pre::new()),
        Width::W128 => unreachable!(),
    }
}
