//! Skeletons as they are meant.

use op_catalog::ListOp;
use scalar_expr::Func;
use tree_names::{DownName, RoseDownName, RoseName, TreeName};

/// An operator that reduces: on a list or a matrix, a binary tree, or a rose tree.
#[derive(Clone, Copy, Debug, PartialEq, Eq)]
pub enum Fold {
    Flat(ListOp),
    Up(TreeName),
    Rose(RoseName),
}

/// An operator that comes down a binary tree, or a rose tree.
#[derive(Clone, Copy, Debug, PartialEq, Eq)]
pub enum Drop2 {
    Down(DownName),
    Rose(RoseDownName),
}

/// A skeleton. `x` and `y` are the numbers of the lines that bind its arguments.
pub enum Skel {
    Map {
        f: Func,
        x: u32,
    },
    Mapln {
        leaf: Func,
        node: Func,
        x: u32,
    },
    Zip {
        x: u32,
        y: u32,
    },
    Filter {
        f: Func,
        x: u32,
    },
    Rev {
        x: u32,
    },
    Iota {
        x: u32,
    },
    Plain {
        x: u32,
    },
    Reduce {
        op: Fold,
        x: u32,
    },
    ReduceBoth {
        down: ListOp,
        across: ListOp,
        x: u32,
    },
    Scan {
        op: ListOp,
        x: u32,
    },
    Scanr {
        op: ListOp,
        x: u32,
    },
    ScanBoth {
        down: ListOp,
        across: ListOp,
        x: u32,
    },
    Rows {
        op: ListOp,
        x: u32,
    },
    Cols {
        op: ListOp,
        x: u32,
    },
    Transpose {
        x: u32,
    },
    Uacc {
        op: Fold,
        x: u32,
    },
    Dacc {
        op: Drop2,
        start: i64,
        x: u32,
    },
    Getchl {
        start: i64,
        x: u32,
    },
    Getchr {
        start: i64,
        x: u32,
    },
}

// By hand, so that where a skeleton is let go there is one call, and not a case for each.
impl Drop for Skel {
    fn drop(self) {
        match self {
            Skel::Map { f: _, x: _ } => (),
            Skel::Mapln {
                leaf: _,
                node: _,
                x: _,
            } => (),
            Skel::Zip { x: _, y: _ } => (),
            Skel::Filter { f: _, x: _ } => (),
            Skel::Rev { x: _ } => (),
            Skel::Iota { x: _ } => (),
            Skel::Plain { x: _ } => (),
            Skel::Reduce { op: _, x: _ } => (),
            Skel::ReduceBoth {
                down: _,
                across: _,
                x: _,
            } => (),
            Skel::Scan { op: _, x: _ } => (),
            Skel::Scanr { op: _, x: _ } => (),
            Skel::ScanBoth {
                down: _,
                across: _,
                x: _,
            } => (),
            Skel::Rows { op: _, x: _ } => (),
            Skel::Cols { op: _, x: _ } => (),
            Skel::Transpose { x: _ } => (),
            Skel::Uacc { op: _, x: _ } => (),
            Skel::Dacc {
                op: _,
                start: _,
                x: _,
            } => (),
            Skel::Getchl { start: _, x: _ } => (),
            Skel::Getchr { start: _, x: _ } => (),
        }
    }
}
