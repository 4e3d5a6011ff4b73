//! Skeletons without operators: what their let lines mean, or the fault of the first step that finds
//! one.
#![tactic(auto, using(crate::proofs::ListLemmas::lengths), unfolding(crate::specs::Steps::let_line, crate::specs::Steps::known_all, crate::specs::Steps::operators_at, crate::specs::Steps::abiding_at, crate::specs::Steps::types_at, crate::specs::Steps::components_at, crate::specs::Steps::type_at, crate::specs::Steps::unit_at, crate::specs::Steps::pair_at))]

ghost use Rattle.std.specs.Prelude.{◌≡◌, ◌<◌, ◌-◌, ◌^◌, [], ◌∷◌, length, map, IsTrue};
ghost use Rattle.plain_text.specs.Numbers.{is_name};
ghost use Rattle.script_words.specs.Read.{Gives};
ghost use Rattle.script_words.specs.Views.{function_of};
ghost use Rattle.script_lang.specs.Steps.{let_line};
ghost use Rattle.script_lang.specs.declared.head.Head.TheVariants as heads;
ghost use Rattle.script_lang.specs.Groups.{map_head, plain_head, child_head};
ghost use Rattle.script_lang.specs.Views.{written_with, statement_of};

use crate::checks::{component_at, components_at, kind_at, pair_at, pair_kinds_at, type_at};
use crate::head::{ChildHead, Head, MapHead, PlainHead};
use crate::line::Line;
use crate::names::{is_new, known_at};
use crate::skel::Skel;
use crate::skeletons::{child_skel, mapped_skel, plain_skel};
use crate::tables::{child_type, joined, let_bound, mapped_type, plain_type, wider_each};
use script_words::{LineFault, SpelledFunction, Word};
use std::alloc::Global;

pub(crate) fn mapped_line(
    alloc: Global,
    lines: &[Line],
    name: &Word<'_>,
    head: MapHead,
    f: SpelledFunction,
    x: &Word<'_>,
) -> Result<Line, LineFault>
    requires few { length lines.now < 2 ^ 31 - 2 }
    requires name { IsTrue (is_name name.now.text) }
    ensures { Gives statement_of result (let_line (map statement_of lines.now) name.now (map_head head) (written_with (function_of f ∷ []) [] [] (x.now ∷ []))) }
{
    let x = known_at(lines, x)?;
    is_new(lines, name)?;
    kind_at(head.head(), 0, &x)?;
    let t = type_at(&f, x.bound.ty)?;
    component_at(head, t, &f)?;
    let ty = mapped_type(head, t, x.bound.ty);
    let bound = let_bound(alloc, name, head.head(), lines.len() as u32, x.bound, ty)?;
    let skel = mapped_skel(head, f.func, x.line);
    Ok(Line::Let { bound, skel })
}

pub(crate) fn mapln_line(
    alloc: Global,
    lines: &[Line],
    name: &Word<'_>,
    leaf: SpelledFunction,
    node: SpelledFunction,
    x: &Word<'_>,
) -> Result<Line, LineFault>
    requires few { length lines.now < 2 ^ 31 - 2 }
    requires name { IsTrue (is_name name.now.text) }
    ensures { Gives statement_of result (let_line (map statement_of lines.now) name.now heads.Mapln (written_with (function_of leaf ∷ function_of node ∷ []) [] [] (x.now ∷ []))) }
{
    let x = known_at(lines, x)?;
    is_new(lines, name)?;
    kind_at(Head::Mapln, 0, &x)?;
    let t = type_at(&leaf, x.bound.ty)?;
    let u = type_at(&node, x.bound.ty)?;
    components_at(t, u, &leaf, &node)?;
    let ty = wider_each(t, u);
    let bound = let_bound(alloc, name, Head::Mapln, lines.len() as u32, x.bound, ty)?;
    let skel = Skel::Mapln {
        leaf: leaf.func,
        node: node.func,
        x: x.line,
    };
    Ok(Line::Let { bound, skel })
}

pub(crate) fn zip_line(
    alloc: Global,
    lines: &[Line],
    name: &Word<'_>,
    x: &Word<'_>,
    y: &Word<'_>,
) -> Result<Line, LineFault>
    requires few { length lines.now < 2 ^ 31 - 2 }
    requires name { IsTrue (is_name name.now.text) }
    ensures { Gives statement_of result (let_line (map statement_of lines.now) name.now heads.Zip (written_with [] [] [] (x.now ∷ y.now ∷ []))) }
{
    let x = known_at(lines, x)?;
    let y = known_at(lines, y)?;
    is_new(lines, name)?;
    pair_kinds_at(&x, &y)?;
    pair_at(&x, &y)?;
    let ty = joined(x.bound.ty, y.bound.ty);
    let bound = let_bound(alloc, name, Head::Zip, lines.len() as u32, x.bound, ty)?;
    let skel = Skel::Zip {
        x: x.line,
        y: y.line,
    };
    Ok(Line::Let { bound, skel })
}

pub(crate) fn plain_line(
    alloc: Global,
    lines: &[Line],
    name: &Word<'_>,
    head: PlainHead,
    x: &Word<'_>,
) -> Result<Line, LineFault>
    requires few { length lines.now < 2 ^ 31 - 2 }
    requires name { IsTrue (is_name name.now.text) }
    ensures { Gives statement_of result (let_line (map statement_of lines.now) name.now (plain_head head) (written_with [] [] [] (x.now ∷ []))) }
{
    let x = known_at(lines, x)?;
    is_new(lines, name)?;
    kind_at(head.head(), 0, &x)?;
    let ty = plain_type(head, x.bound.ty);
    let bound = let_bound(alloc, name, head.head(), lines.len() as u32, x.bound, ty)?;
    let skel = plain_skel(head, x.line);
    Ok(Line::Let { bound, skel })
}

pub(crate) fn child_line(
    alloc: Global,
    lines: &[Line],
    name: &Word<'_>,
    head: ChildHead,
    start: i64,
    x: &Word<'_>,
) -> Result<Line, LineFault>
    requires few { length lines.now < 2 ^ 31 - 2 }
    requires name { IsTrue (is_name name.now.text) }
    ensures { Gives statement_of result (let_line (map statement_of lines.now) name.now (child_head head) (written_with [] [] (start ∷ []) (x.now ∷ []))) }
{
    let x = known_at(lines, x)?;
    is_new(lines, name)?;
    kind_at(head.head(), 0, &x)?;
    let ty = child_type(head, &x)?;
    let bound = let_bound(alloc, name, head.head(), lines.len() as u32, x.bound, ty)?;
    let skel = child_skel(head, start, x.line);
    Ok(Line::Let { bound, skel })
}
