//! The steps that judge a let line.
ghost use Rattle.std.specs.Prelude.{◌≡◌, ◌≤◌, ◌+◌, ◌==◌, [], ◌∷◌, length, true, OnOk, Err, List, slice_index};
ghost use Rattle.op_laws.specs.declared.width.Width.{Width};
ghost use Rattle.scalar_expr.specs.Views.{scalars_of};
ghost use Rattle.script_words.specs.Read.{Gives, Fails};
ghost use Rattle.script_words.specs.Views.{function_of};
ghost use Rattle.script_lang.specs.Tables.{takes_kind};
ghost use Rattle.script_lang.specs.Steps.{kinds_at, placed, components_at, pair_at};
ghost use Rattle.script_lang.specs.declared.head.Head.TheVariants as heads;
ghost use Rattle.script_lang.specs.Groups.{map_head};
ghost use Rattle.script_lang.specs.Views.{known_of};
ghost use Rattle.scalar_expr.specs.Typing.{typed};

use crate::head::{Head, MapHead};
use crate::known::Known;
use op_laws::ElemType;
use scalar_expr::{TypeFault, type_of};
use script_words::{LineFault, ScriptWhat, SpelledFunction, at};

/// The kind of a lone argument, of a skeleton with so many operators.
#[tactic(auto, unfolding(crate::specs::Steps::kinds_at, crate::specs::Steps::of_kind))]
pub(crate) fn kind_at(head: Head, operators: usize, x: &Known<'_>) -> Result<(), LineFault>
    ensures gives { Gives (λ u. u) result (kinds_at head operators (known_of x.now) []) }
    ensures taken { OnOk result (takes_kind head operators x.now.bound.now.kind ≡ true) }
{
    if !head.takes(operators, x.bound.kind) {
        return Err(at(x.column, ScriptWhat::WrongKind));
    }
    Ok(())
}

/// The kinds of the arguments of `zip`.
#[tactic(auto, unfolding(crate::specs::Steps::kinds_at, crate::specs::Steps::of_kind))]
pub(crate) fn pair_kinds_at(x: &Known<'_>, y: &Known<'_>) -> Result<(), LineFault>
    ensures { Gives (λ u. u) result (kinds_at heads.Zip 0 (known_of x.now) (known_of y.now ∷ [])) }
{
    if !Head::Zip.takes(0, x.bound.kind) {
        return Err(at(x.column, ScriptWhat::WrongKind));
    }
    if !y.bound.kind.is(x.bound.kind) {
        return Err(at(y.column, ScriptWhat::WrongKind));
    }
    Ok(())
}

// The column of the node at this place.
fn column_of(columns: &[u32], place: u32) -> u32
    ensures { result ≡ slice_index columns.now place }
{
    match columns.get(place as usize) {
        Some(column) => *column,
        None => 0,
    }
}

fn placed(columns: &[u32], fault: TypeFault) -> LineFault
    ensures { Fails result (placed {X = List Width} columns.now (Err fault)) }
{
    match fault {
        TypeFault::NoPart(place) => at(column_of(columns, place), ScriptWhat::WrongArity),
        TypeFault::TooWide(place) => at(column_of(columns, place), ScriptWhat::TooWide),
        TypeFault::TooDeep(place) => at(column_of(columns, place), ScriptWhat::TooDeep),
        TypeFault::Memory => LineFault::Memory,
    }
}

/// The type that a function gives on elements of this type.
pub(crate) fn type_at(f: &SpelledFunction, ty: ElemType) -> Result<ElemType, LineFault>
    ensures { Gives (λ t. t) result (placed f.now.columns.items (typed ty (scalars_of f.now.func))) }
{
    match type_of(&f.func, ty) {
        Ok(t) => Ok(t),
        Err(fault) => Err(placed(&f.columns, fault)),
    }
}

/// `filter` has a function with one component.
#[tactic(auto, unfolding(crate::specs::Steps::components_at))]
pub(crate) fn component_at(head: MapHead, t: ElemType, f: &SpelledFunction) -> Result<(), LineFault>
    ensures { Gives (λ u. u) result (components_at (t ∷ []) (map_head head) (function_of f.now ∷ [])) }
{
    match head {
        MapHead::Map => Ok(()),
        MapHead::Filter => {
            if t.len() != 1 {
                return Err(at(f.at, ScriptWhat::WrongArity));
            }
            Ok(())
        }
    }
}

/// The functions of `mapln` have equally many components.
#[tactic(auto, unfolding(crate::specs::Steps::components_at))]
pub(crate) fn components_at(
    t: ElemType,
    u: ElemType,
    leaf: &SpelledFunction,
    node: &SpelledFunction,
) -> Result<(), LineFault>
    ensures gives { Gives (λ u. u) result (components_at (t ∷ u ∷ []) heads.Mapln (function_of leaf.now ∷ function_of node.now ∷ [])) }
    ensures fit { OnOk result (length t ≡ length u) }
{
    if t.len() != u.len() {
        return Err(at(node.at, ScriptWhat::WrongArity));
    }
    Ok(())
}

/// The shapes and the number of components of the arguments of `zip`.
#[tactic(auto, unfolding(crate::specs::Steps::pair_at))]
pub(crate) fn pair_at(x: &Known<'_>, y: &Known<'_>) -> Result<(), LineFault>
    ensures gives { Gives (λ u. u) result (pair_at (known_of x.now) (known_of y.now ∷ [])) }
    ensures few { OnOk result (length x.now.bound.now.ty + length y.now.bound.now.ty ≤ 4) }
{
    if !(x.bound.shape == y.bound.shape && x.bound.across == y.bound.across) {
        return Err(at(y.column, ScriptWhat::ShapeDiffers));
    }
    if x.bound.ty.len() + y.bound.ty.len() > 4 {
        return Err(at(y.column, ScriptWhat::TupleTooLong));
    }
    Ok(())
}
