//! Skeletons of each group.
ghost use Rattle.std.specs.Prelude.{◌≡◌, [], ◌∷◌};
ghost use Rattle.scalar_expr.specs.Views.{scalars_of};
ghost use Rattle.script_lang.specs.declared.op.Op.TheVariants as op_word;
ghost use Rattle.script_lang.specs.Groups.{map_head, plain_head, fold_head, flat_head, both_head, child_head};
ghost use Rattle.script_lang.specs.Views.{skeleton_with, skeleton_of, fold_op};

use crate::head::{BothHead, ChildHead, FlatHead, FoldHead, MapHead, PlainHead};
use crate::skel::{Fold, Skel};
use op_catalog::ListOp;
use scalar_expr::Func;

pub(crate) fn mapped_skel(head: MapHead, f: Func, x: u32) -> Skel
    ensures { skeleton_of result ≡ skeleton_with (map_head head) (scalars_of f ∷ []) [] [] (x ∷ []) }
{
    match head {
        MapHead::Map => Skel::Map { f, x },
        MapHead::Filter => Skel::Filter { f, x },
    }
}

pub(crate) fn plain_skel(head: PlainHead, x: u32) -> Skel
    ensures { skeleton_of result ≡ skeleton_with (plain_head head) [] [] [] (x ∷ []) }
{
    match head {
        PlainHead::Rev => Skel::Rev { x },
        PlainHead::Iota => Skel::Iota { x },
        PlainHead::Plain => Skel::Plain { x },
        PlainHead::Transpose => Skel::Transpose { x },
    }
}

pub(crate) fn folded_skel(head: FoldHead, op: Fold, x: u32) -> Skel
    ensures { skeleton_of result ≡ skeleton_with (fold_head head) [] (fold_op op ∷ []) [] (x ∷ []) }
{
    match head {
        FoldHead::Reduce => Skel::Reduce { op, x },
        FoldHead::Uacc => Skel::Uacc { op, x },
    }
}

pub(crate) fn flat_skel(head: FlatHead, op: ListOp, x: u32) -> Skel
    ensures { skeleton_of result ≡ skeleton_with (flat_head head) [] (op_word.Flat op ∷ []) [] (x ∷ []) }
{
    match head {
        FlatHead::Scan => Skel::Scan { op, x },
        FlatHead::Scanr => Skel::Scanr { op, x },
        FlatHead::Rows => Skel::Rows { op, x },
        FlatHead::Cols => Skel::Cols { op, x },
    }
}

pub(crate) fn both_skel(head: BothHead, down: ListOp, across: ListOp, x: u32) -> Skel
    ensures { skeleton_of result ≡ skeleton_with (both_head head) [] (op_word.Flat down ∷ op_word.Flat across ∷ []) [] (x ∷ []) }
{
    match head {
        BothHead::Reduce => Skel::ReduceBoth { down, across, x },
        BothHead::Scan => Skel::ScanBoth { down, across, x },
    }
}

pub(crate) fn child_skel(head: ChildHead, start: i64, x: u32) -> Skel
    ensures { skeleton_of result ≡ skeleton_with (child_head head) [] [] (start ∷ []) (x ∷ []) }
{
    match head {
        ChildHead::Left => Skel::Getchl { start, x },
        ChildHead::Right => Skel::Getchr { start, x },
    }
}
