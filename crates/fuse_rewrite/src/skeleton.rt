//! What a plan asks of skeletons.
ghost use Rattle.std.specs.Prelude.{◌≡◌};
ghost use Rattle.script_lang.specs.Views.{skeleton_of};
ghost use Rattle.fuse_rewrite.specs.Uses.{takes_pipe};
ghost use Rattle.fuse_rewrite.specs.Steps.{makes_pipe, last_of};
ghost use Rattle.fuse_rewrite.specs.Arguments.{list_of};

use script_lang::Skel;

/// The arguments of a skeleton: one, or two of `zip`.
#[derive(Clone, Copy)]
pub(crate) struct Arguments {
    pub(crate) first: Option<u32>,
    pub(crate) last: u32,
}

pub(crate) fn arguments_of(skel: &Skel) -> Arguments
    ensures listed { list_of result ≡ (skeleton_of skel.now).arguments }
    ensures last { result.last ≡ last_of (skeleton_of skel.now).arguments }
{
    match skel {
        Skel::Zip { x, y } => Arguments {
            first: Some(*x),
            last: *y,
        },
        Skel::Map { x, .. }
        | Skel::Mapln { x, .. }
        | Skel::Filter { x, .. }
        | Skel::Rev { x }
        | Skel::Iota { x }
        | Skel::Plain { x }
        | Skel::Reduce { x, .. }
        | Skel::ReduceBoth { x, .. }
        | Skel::Scan { x, .. }
        | Skel::Scanr { x, .. }
        | Skel::ScanBoth { x, .. }
        | Skel::Rows { x, .. }
        | Skel::Cols { x, .. }
        | Skel::Transpose { x }
        | Skel::Uacc { x, .. }
        | Skel::Dacc { x, .. }
        | Skel::Getchl { x, .. }
        | Skel::Getchr { x, .. } => Arguments {
            first: None,
            last: *x,
        },
    }
}

/// Whether it takes the elements of a list as they come.
pub(crate) fn takes_pipe(skel: &Skel) -> bool
    ensures { result ≡ takes_pipe (skeleton_of skel.now).head }
{
    match skel {
        Skel::Map { .. }
        | Skel::Filter { .. }
        | Skel::Rev { .. }
        | Skel::Plain { .. }
        | Skel::Reduce { .. }
        | Skel::ReduceBoth { .. }
        | Skel::Scan { .. }
        | Skel::ScanBoth { .. }
        | Skel::Scanr { .. } => true,
        Skel::Mapln { .. }
        | Skel::Zip { .. }
        | Skel::Iota { .. }
        | Skel::Rows { .. }
        | Skel::Cols { .. }
        | Skel::Transpose { .. }
        | Skel::Uacc { .. }
        | Skel::Dacc { .. }
        | Skel::Getchl { .. }
        | Skel::Getchr { .. } => false,
    }
}

/// Whether its list can be taken as it comes.
pub(crate) fn makes_pipe(skel: &Skel) -> bool
    ensures { result ≡ makes_pipe (skeleton_of skel.now).head }
{
    match skel {
        Skel::Map { .. }
        | Skel::Filter { .. }
        | Skel::Rev { .. }
        | Skel::Zip { .. }
        | Skel::Iota { .. } => true,
        // A scan's element holds what stands before it, so no filter can change places with the scan.
        Skel::Scan { .. } | Skel::Scanr { .. } | Skel::ScanBoth { .. } => false,
        Skel::Mapln { .. }
        | Skel::Plain { .. }
        | Skel::Reduce { .. }
        | Skel::ReduceBoth { .. }
        | Skel::Rows { .. }
        | Skel::Cols { .. }
        | Skel::Transpose { .. }
        | Skel::Uacc { .. }
        | Skel::Dacc { .. }
        | Skel::Getchl { .. }
        | Skel::Getchr { .. } => false,
    }
}
