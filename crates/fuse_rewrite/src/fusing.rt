//! Which lines are fused, and the chains that they make.
ghost use Rattle.std.specs.Prelude.{◌≡◌, map, reverse, length, IfOk};
ghost use Rattle.script_lang.specs.declared.kind.Kind.TheVariants as kinds;
ghost use Rattle.script_lang.specs.Tables.{same_kind};
ghost use Rattle.script_lang.specs.Views.{binding_of, skeleton_of, statement_of};
ghost use Rattle.fuse_rewrite.specs.Uses.{Uses};
ghost use Rattle.fuse_rewrite.specs.Steps.{fused_at, chain_to};
ghost use Rattle.fuse_rewrite.specs.Demands.{fused_by, kept_by, argument_by, AreDemands};

use crate::demand::Demand;
use crate::skeleton::{arguments_of, makes_pipe};
use script_lang::{Bound, Kind, Line, Skel};
use std::alloc::{AllocError, Global};

fn is_list(kind: Kind) -> bool
    ensures { result ≡ same_kind kind kinds.List }
{
    match kind {
        Kind::List => true,
        Kind::Single | Kind::Matrix | Kind::Tree | Kind::Rose => false,
    }
}

// Whether a name is fused that is used so.
fn is_fused(bound: &Bound, skel: &Skel, demand: Demand) -> bool
    ensures { result ≡ fused_by demand (binding_of bound.now) (skeleton_of skel.now) }
{
    match demand {
        Demand::Piped => is_list(bound.kind) && makes_pipe(skel),
        Demand::Unused | Demand::Built => false,
    }
}

/// Whether a name of a let line is kept that is used so.
pub(crate) fn is_kept(bound: &Bound, skel: &Skel, demand: Demand) -> bool
    ensures { result ≡ kept_by demand (binding_of bound.now) (skeleton_of skel.now) }
{
    demand.is_used() && !is_fused(bound, skel, demand)
}

// The last argument of a line that is used so, where it is a let line that is fused.
fn argument_by(line: &Line, demand: Demand) -> Option<u32>
    ensures { result ≡ argument_by demand (statement_of line.now) }
{
    match line {
        Line::Let { bound, skel } => {
            if is_fused(bound, skel, demand) {
                Some(arguments_of(skel).last)
            } else {
                None
            }
        }
        Line::Input { .. } | Line::Print { .. } => None,
    }
}

// The same of the line of this number.
fn fused_at(lines: &[Line], demands: &[Demand], n: u32) -> Option<u32>
    requires { length demands.now ≡ length lines.now }
    ensures { (us : Uses) → AreDemands us demands.now → result ≡ fused_at (map statement_of lines.now) us n }
{
    match lines.get(n as usize) {
        None => None,
        Some(line) => argument_by(line, demands[n as usize]),
    }
}

// The fused lines that lead to the line of this number and it, farthest from the head first.
fn chain_from(
    alloc: Global,
    lines: &[Line],
    demands: &[Demand],
    room: u32,
    n: u32,
) -> Result<Vec<u32>, AllocError>
    requires { length demands.now ≡ length lines.now }
    ensures { (us : Uses) → AreDemands us demands.now → IfOk result (λ c. reverse c.items ≡ chain_to room (map statement_of lines.now) us n) }
{
    let mut chain = Vec::new(alloc);
    let mut next = n;
    for _i in 0..room {
        match fused_at(lines, demands, next) {
            None => return Ok(chain),
            Some(argument) => {
                chain.push(next)?;
                next = argument;
            }
        }
    }
    Ok(chain)
}

/// The fused lines that lead to the line of this number and it, nearest to the head first, of which
/// there are at most `room`. Its time is in proportion to their number.
pub(crate) fn chain_to(
    alloc: Global,
    lines: &[Line],
    demands: &[Demand],
    room: u32,
    n: u32,
) -> Result<Vec<u32>, AllocError>
    requires { length demands.now ≡ length lines.now }
    ensures { (us : Uses) → AreDemands us demands.now → IfOk result (λ c. c.items ≡ chain_to room (map statement_of lines.now) us n) }
{
    let mut chain = chain_from(alloc, lines, demands, room, n)?;
    chain.reverse();
    Ok(chain)
}
