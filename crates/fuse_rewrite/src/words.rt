//! The words of skeletons and of operators.
ghost use Rattle.std.specs.Prelude.{◌≡◌};
ghost use Rattle.op_catalog.specs.Catalog.{name_of};
ghost use Rattle.tree_names.specs.Names.{tree_name, down_name, rose_name, rose_down_name};
ghost use Rattle.script_lang.specs.Views.{fold_op, drop_op, skeleton_of};
ghost use Rattle.fuse_rewrite.specs.PlanText.{head_word, op_word};

use op_catalog::ListOp;
use script_lang::{Drop2, Fold, Skel};
use tree_names::{DownName, RoseDownName, RoseName, TreeName};

pub(crate) fn head_word<'x>(skel: &Skel) -> &'x [u8]
    ensures { result.now ≡ head_word (skeleton_of skel.now).head }
{
    match skel {
        Skel::Map { .. } => b"map",
        Skel::Mapln { .. } => b"mapln",
        Skel::Zip { .. } => b"zip",
        Skel::Filter { .. } => b"filter",
        Skel::Rev { .. } => b"rev",
        Skel::Iota { .. } => b"iota",
        Skel::Plain { .. } => b"plain",
        Skel::Reduce { .. } | Skel::ReduceBoth { .. } => b"reduce",
        Skel::Scan { .. } | Skel::ScanBoth { .. } => b"scan",
        Skel::Scanr { .. } => b"scanr",
        Skel::Rows { .. } => b"rows",
        Skel::Cols { .. } => b"cols",
        Skel::Transpose { .. } => b"transpose",
        Skel::Uacc { .. } => b"uacc",
        Skel::Dacc { .. } => b"dacc",
        Skel::Getchl { .. } => b"getchl",
        Skel::Getchr { .. } => b"getchr",
    }
}

pub(crate) fn flat_word<'x>(op: ListOp) -> &'x [u8]
    ensures { result.now ≡ name_of op }
{
    match op {
        ListOp::Add => b"add",
        ListOp::Mul => b"mul",
        ListOp::Min => b"min",
        ListOp::Max => b"max",
        ListOp::And => b"and",
        ListOp::Or => b"or",
        ListOp::Xor => b"xor",
        ListOp::Mss => b"mss",
        ListOp::Affine => b"affine",
        ListOp::First => b"first",
        ListOp::Last => b"last",
    }
}

fn tree_word<'x>(op: TreeName) -> &'x [u8]
    ensures { result.now ≡ tree_name op }
{
    match op {
        TreeName::Sum => b"sum",
        TreeName::Min => b"min",
        TreeName::Max => b"max",
        TreeName::Heavy => b"heavy",
        TreeName::BestSub => b"bestsub",
        TreeName::Expr => b"expr",
    }
}

fn rose_word<'x>(op: RoseName) -> &'x [u8]
    ensures { result.now ≡ rose_name op }
{
    match op {
        RoseName::Sum => b"sum",
        RoseName::Max => b"max",
        RoseName::Min => b"min",
        RoseName::Heavy => b"heavy",
        RoseName::Ring => b"ring",
    }
}

fn down_word<'x>(op: DownName) -> &'x [u8]
    ensures { result.now ≡ down_name op }
{
    match op {
        DownName::PathSum => b"pathsum",
        DownName::PathMax => b"pathmax",
        DownName::Turns => b"turns",
        DownName::HeapIndex => b"heapindex",
        DownName::Pre => b"pre",
    }
}

fn rose_down_word<'x>(op: RoseDownName) -> &'x [u8]
    ensures { result.now ≡ rose_down_name op }
{
    match op {
        RoseDownName::PathSum => b"pathsum",
    }
}

pub(crate) fn fold_word<'x>(op: Fold) -> &'x [u8]
    ensures { result.now ≡ op_word (fold_op op) }
{
    match op {
        Fold::Flat(op) => flat_word(op),
        Fold::Up(op) => tree_word(op),
        Fold::Rose(op) => rose_word(op),
    }
}

pub(crate) fn drop_word<'x>(op: Drop2) -> &'x [u8]
    ensures { result.now ≡ op_word (drop_op op) }
{
    match op {
        Drop2::Down(op) => down_word(op),
        Drop2::Rose(op) => rose_down_word(op),
    }
}
