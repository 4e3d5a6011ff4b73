//! The operators that go up rose trees, each at its width.

ghost use Rattle.std.specs.Prelude.{IsOk};
ghost use Rattle.tree_names.specs.Names.{rose_typed};
ghost use Rattle.tree_catalog.specs.RoseOperators.{IsRoseOperator};

use crate::width::only_width;
use op_laws::{ElemType, Width};
use tree_aux::{RHeavy, RMax, RMin, RRing, RSum};
use tree_names::RoseName;

/// An operator at its own type. `with_rose_operator!` makes a call at it.
#[derive(Clone, Copy, Debug)]
pub enum RoseOperator {
    Sum64(RSum<64>),
    Sum96(RSum<96>),
    Max64(RMax<64>),
    Max96(RMax<96>),
    Max128(RMax<128>),
    Min64(RMin<64>),
    Min96(RMin<96>),
    Min128(RMin<128>),
    Heavy64(RHeavy<64>),
    Heavy96(RHeavy<96>),
    Ring(RRing),
}

impl RoseOperator {
    /// The operator of this name for elements of this type.
    pub fn of(name: RoseName, ty: ElemType) -> RoseOperator
        requires { IsOk (rose_typed name ty) }
        ensures { IsRoseOperator result name ty }
    {
        match name {
            RoseName::Sum => sum_at(ty),
            RoseName::Max => max_at(ty),
            RoseName::Min => min_at(ty),
            RoseName::Heavy => heavy_at(ty),
            RoseName::Ring => RoseOperator::Ring(RRing::new()),
        }
    }
}

fn sum_at(ty: ElemType) -> RoseOperator
    requires { IsOk (rose_typed RoseName.Sum ty) }
    ensures { IsRoseOperator result RoseName.Sum ty }
{
    match only_width(ty) {
        Width::W64 => RoseOperator::Sum64(RSum::new()),
        Width::W96 => RoseOperator::Sum96(RSum::new()),
        Width::W128 => unreachable!(),
    }
}

fn max_at(ty: ElemType) -> RoseOperator
    requires { IsOk (rose_typed RoseName.Max ty) }
    ensures { IsRoseOperator result RoseName.Max ty }
{
    match only_width(ty) {
        Width::W64 => RoseOperator::Max64(RMax::new()),
        Width::W96 => RoseOperator::Max96(RMax::new()),
        Width::W128 => RoseOperator::Max128(RMax::new()),
    }
}

fn min_at(ty: ElemType) -> RoseOperator
    requires { IsOk (rose_typed RoseName.Min ty) }
    ensures { IsRoseOperator result RoseName.Min ty }
{
    match only_width(ty) {
        Width::W64 => RoseOperator::Min64(RMin::new()),
        Width::W96 => RoseOperator::Min96(RMin::new()),
        Width::W128 => RoseOperator::Min128(RMin::new()),
    }
}

fn heavy_at(ty: ElemType) -> RoseOperator
    requires { IsOk (rose_typed RoseName.Heavy ty) }
    ensures { IsRoseOperator result RoseName.Heavy ty }
{
    match only_width(ty) {
        Width::W64 => RoseOperator::Heavy64(RHeavy::new()),
        Width::W96 => RoseOperator::Heavy96(RHeavy::new()),
        Width::W128 => unreachable!(),
    }
}
