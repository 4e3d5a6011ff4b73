//! Skeletons with operators: what their let lines mean, or the fault of the first step that finds one.
#![tactic(auto, using(crate::proofs::ListLemmas::lengths), unfolding(crate::specs::Steps::let_line, crate::specs::Steps::known_all, crate::specs::Steps::operators_at, crate::specs::Steps::abiding_at, crate::specs::Steps::types_at, crate::specs::Steps::components_at, crate::specs::Steps::pair_at))]

ghost use Rattle.std.specs.Prelude.{◌≡◌, ◌<◌, ◌-◌, ◌^◌, [], ◌∷◌, length, map, IsTrue};
ghost use Rattle.plain_text.specs.Numbers.{is_name};
ghost use Rattle.script_words.specs.Read.{Gives};
ghost use Rattle.script_lang.specs.Steps.{let_line};
ghost use Rattle.script_lang.specs.declared.head.Head.TheVariants as heads;
ghost use Rattle.script_lang.specs.Groups.{fold_head, flat_head, both_head};
ghost use Rattle.script_lang.specs.Views.{written_with, statement_of};

use crate::checks::kind_at;
use crate::head::{BothHead, FlatHead, FoldHead, Head};
use crate::line::Line;
use crate::names::{is_new, known_at};
use crate::op_types::{both_type, drop_type, flat_type, fold_type, fold_unit};
use crate::operators::{both_at, drop_at, flat_at, fold_at};
use crate::skel::Skel;
use crate::skeletons::{both_skel, flat_skel, folded_skel};
use crate::tables::let_bound;
use op_catalog::abiding;
use script_words::{LineFault, ScriptWhat, Word, at};
use std::alloc::Global;

pub(crate) fn folded_line(
    alloc: Global,
    lines: &[Line],
    name: &Word<'_>,
    head: FoldHead,
    op: &Word<'_>,
    x: &Word<'_>,
) -> Result<Line, LineFault>
    requires few { length lines.now < 2 ^ 31 - 2 }
    requires name { IsTrue (is_name name.now.text) }
    ensures { Gives statement_of result (let_line (map statement_of lines.now) name.now (fold_head head) (written_with [] (op.now ∷ []) [] (x.now ∷ []))) }
{
    let x = known_at(lines, x)?;
    is_new(lines, name)?;
    kind_at(head.head(), 1, &x)?;
    let fold = fold_at(head, x.bound.kind, op)?;
    let ty = fold_type(head, fold, op.column(), &x)?;
    fold_unit(head, fold, op.column(), x.bound.kind)?;
    let bound = let_bound(alloc, name, head.head(), lines.len() as u32, x.bound, ty)?;
    let skel = folded_skel(head, fold, x.line);
    Ok(Line::Let { bound, skel })
}

pub(crate) fn flat_line(
    alloc: Global,
    lines: &[Line],
    name: &Word<'_>,
    head: FlatHead,
    op: &Word<'_>,
    x: &Word<'_>,
) -> Result<Line, LineFault>
    requires few { length lines.now < 2 ^ 31 - 2 }
    requires name { IsTrue (is_name name.now.text) }
    ensures { Gives statement_of result (let_line (map statement_of lines.now) name.now (flat_head head) (written_with [] (op.now ∷ []) [] (x.now ∷ []))) }
{
    let x = known_at(lines, x)?;
    is_new(lines, name)?;
    kind_at(head.head(), 1, &x)?;
    let flat = flat_at(head, x.bound.kind, op)?;
    let ty = flat_type(head, flat, op.column(), &x)?;
    let bound = let_bound(alloc, name, head.head(), lines.len() as u32, x.bound, ty)?;
    let skel = flat_skel(head, flat, x.line);
    Ok(Line::Let { bound, skel })
}

pub(crate) fn both_line(
    alloc: Global,
    lines: &[Line],
    name: &Word<'_>,
    head: BothHead,
    down: &Word<'_>,
    across: &Word<'_>,
    x: &Word<'_>,
) -> Result<Line, LineFault>
    requires few { length lines.now < 2 ^ 31 - 2 }
    requires name { IsTrue (is_name name.now.text) }
    ensures { Gives statement_of result (let_line (map statement_of lines.now) name.now (both_head head) (written_with [] (down.now ∷ across.now ∷ []) [] (x.now ∷ []))) }
{
    let x = known_at(lines, x)?;
    is_new(lines, name)?;
    kind_at(head.head(), 2, &x)?;
    let first = both_at(head, x.bound.kind, down)?;
    let second = both_at(head, x.bound.kind, across)?;
    if !abiding(first, second) {
        return Err(at(across.column(), ScriptWhat::NotAbiding));
    }
    let ty = both_type(head, first, second, down.column(), across.column(), &x)?;
    let bound = let_bound(alloc, name, head.head(), lines.len() as u32, x.bound, ty)?;
    let skel = both_skel(head, first, second, x.line);
    Ok(Line::Let { bound, skel })
}

pub(crate) fn dacc_line(
    alloc: Global,
    lines: &[Line],
    name: &Word<'_>,
    op: &Word<'_>,
    start: i64,
    x: &Word<'_>,
) -> Result<Line, LineFault>
    requires few { length lines.now < 2 ^ 31 - 2 }
    requires name { IsTrue (is_name name.now.text) }
    ensures { Gives statement_of result (let_line (map statement_of lines.now) name.now heads.Dacc (written_with [] (op.now ∷ []) (start ∷ []) (x.now ∷ []))) }
{
    let x = known_at(lines, x)?;
    is_new(lines, name)?;
    kind_at(Head::Dacc, 1, &x)?;
    let down = drop_at(x.bound.kind, op)?;
    let ty = drop_type(down, op.column(), &x)?;
    let bound = let_bound(alloc, name, Head::Dacc, lines.len() as u32, x.bound, ty)?;
    let skel = Skel::Dacc {
        op: down,
        start,
        x: x.line,
    };
    Ok(Line::Let { bound, skel })
}
