//! Chains of skeletons, put together as one pipe.

ghost use Rattle.std.specs.Prelude.{◌≡◌, map, slice_get, OnOk};
ghost use Rattle.std.specs.List.{All};
ghost use Rattle.op_laws.specs.Admits.{Admits};
ghost use Rattle.list_fusion.specs.Pipes.{type_of, elements};
ghost use Rattle.script_lang.specs.Views.{statement_of};
ghost use Rattle.script_run.specs.Pipes.{IsPassing, ArePassing, passed_by, type_by, passed_along, type_along_lines};

use crate::lines::skeleton_at;
use crate::stages::pass;
use list_fusion::Pipe;
use script_lang::Line;
use std::alloc::{AllocError, Global};

// Does to a pipe what the skeleton of a line does to the list that it takes.
fn pass_line(alloc: Global, pipe: &mut Pipe, lines: &[Line], n: u32) -> Result<(), AllocError>
    requires passes { IsPassing (map statement_of lines.now) n (type_of pipe.old) (type_by (slice_get (map statement_of lines.now) n) (type_of pipe.old)) }
    requires admitted { All (Admits (type_of pipe.old)) (elements pipe.old) }
    ensures elements { OnOk result (elements pipe.new ≡ passed_by (slice_get (map statement_of lines.now) n) (elements pipe.old)) }
    ensures ty { OnOk result (type_of pipe.new ≡ type_by (slice_get (map statement_of lines.now) n) (type_of pipe.old)) }
    ensures admitted { OnOk result (All (Admits (type_of pipe.new)) (elements pipe.new)) }
{
    pass(alloc, pipe, skeleton_at(lines, n))
}

/// Does to a pipe what the skeletons of these lines do, one after another.
pub(crate) fn pass_chain(
    alloc: Global,
    pipe: &mut Pipe,
    lines: &[Line],
    chain: &[u32],
) -> Result<(), AllocError>
    requires passes { ArePassing (map statement_of lines.now) chain.now (type_of pipe.old) }
    requires admitted { All (Admits (type_of pipe.old)) (elements pipe.old) }
    ensures elements { OnOk result (elements pipe.new ≡ passed_along (map statement_of lines.now) chain.now (elements pipe.old)) }
    ensures ty { OnOk result (type_of pipe.new ≡ type_along_lines (map statement_of lines.now) chain.now (type_of pipe.old)) }
    ensures admitted { OnOk result (All (Admits (type_of pipe.new)) (elements pipe.new)) }
{
    for n in chain {
        pass_line(alloc, pipe, lines, *n)?;
    }
    Ok(())
}
