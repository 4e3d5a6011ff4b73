//! The operators that go up binary trees, each at its width.

ghost use Rattle.std.specs.Prelude.{IsOk};
ghost use Rattle.tree_names.specs.Names.{tree_typed};
ghost use Rattle.tree_catalog.specs.TreeOperators.{IsTreeOperator};

use crate::width::only_width;
use op_laws::{ElemType, Width};
use tree_aux::{BestSub, ExprOp, Heavy, TMax, TMin, TSum};
use tree_names::TreeName;

/// An operator at its own type. `with_tree_operator!` makes a call at it.
#[derive(Clone, Copy, Debug)]
pub enum TreeOperator {
    Sum64(TSum<64>),
    Sum96(TSum<96>),
    Min64(TMin<64>),
    Min96(TMin<96>),
    Min128(TMin<128>),
    Max64(TMax<64>),
    Max96(TMax<96>),
    Max128(TMax<128>),
    Heavy64(Heavy<64>),
    Heavy96(Heavy<96>),
    BestSub64(BestSub<64>),
    BestSub96(BestSub<96>),
    Expr(ExprOp),
}

impl TreeOperator {
    /// The operator of this name for elements of this type.
    pub fn of(name: TreeName, ty: ElemType) -> TreeOperator
        requires { IsOk (tree_typed name ty) }
        ensures { IsTreeOperator result name ty }
    {
        match name {
            TreeName::Sum => sum_at(ty),
            TreeName::Min => min_at(ty),
            TreeName::Max => max_at(ty),
            TreeName::Heavy => heavy_at(ty),
            TreeName::BestSub => best_sub_at(ty),
            TreeName::Expr => TreeOperator::Expr(ExprOp::new()),
        }
    }
}

fn sum_at(ty: ElemType) -> TreeOperator
    requires { IsOk (tree_typed TreeName.Sum ty) }
    ensures { IsTreeOperator result TreeName.Sum ty }
{
    match only_width(ty) {
        Width::W64 => TreeOperator::Sum64(TSum::new()),
        Width::W96 => TreeOperator::Sum96(TSum::new()),
        Width::W128 => unreachable!(),
    }
}

fn min_at(ty: ElemType) -> TreeOperator
    requires { IsOk (tree_typed TreeName.Min ty) }
    ensures { IsTreeOperator result TreeName.Min ty }
{
    match only_width(ty) {
        Width::W64 => TreeOperator::Min64(TMin::new()),
        Width::W96 => TreeOperator::Min96(TMin::new()),
        Width::W128 => TreeOperator::Min128(TMin::new()),
    }
}

fn max_at(ty: ElemType) -> TreeOperator
    requires { IsOk (tree_typed TreeName.Max ty) }
    ensures { IsTreeOperator result TreeName.Max ty }
{
    match only_width(ty) {
        Width::W64 => TreeOperator::Max64(TMax::new()),
        Width::W96 => TreeOperator::Max96(TMax::new()),
        Width::W128 => TreeOperator::Max128(TMax::new()),
    }
}

fn heavy_at(ty: ElemType) -> TreeOperator
    requires { IsOk (tree_typed TreeName.Heavy ty) }
    ensures { IsTreeOperator result TreeName.Heavy ty }
{
    match only_width(ty) {
        Width::W64 => TreeOperator::Heavy64(Heavy::new()),
        Width::W96 => TreeOperator::Heavy96(Heavy::new()),
        Width::W128 => unreachable!(),
    }
}

fn best_sub_at(ty: ElemType) -> TreeOperator
    requires { IsOk (tree_typed TreeName.BestSub ty) }
    ensures { IsTreeOperator result TreeName.BestSub ty }
{
    match only_width(ty) {
        Width::W64 => TreeOperator::BestSub64(BestSub::new()),
        Width::W96 => TreeOperator::BestSub96(BestSub::new()),
        Width::W128 => unreachable!(),
    }
}
