//! What skeletons give: kinds, types and shapes.
ghost use Rattle.std.specs.Prelude.{◌≡◌, ◌<◌, ◌≤◌, ◌+◌, ◌++◌, ◌-◌, ◌^◌, [], ◌∷◌, length, Ok, IfOk, IsTrue};
ghost use Rattle.plain_text.specs.Numbers.{is_name};
ghost use Rattle.script_words.specs.Read.{Gives};
ghost use Rattle.script_lang.specs.Tables.{type_given, shapes_given, wider_each};
ghost use Rattle.script_lang.specs.Steps.{type_at, let_binding};
ghost use Rattle.script_lang.specs.Groups.{map_head, plain_head, child_head};
ghost use Rattle.script_lang.specs.Views.{binding_of, known_of};

use crate::head::{ChildHead, Head, MapHead, PlainHead};
use crate::known::Known;
use crate::line::Bound;
use op_laws::{ElemType, Width};
use plain_text::Name;
use script_words::{LineFault, ScriptWhat, Word, at};
use std::alloc::{AllocError, Global};

/// The type of what `map` or `filter` makes of `x`, where the function gives `t`.
pub(crate) fn mapped_type(head: MapHead, t: ElemType, x: ElemType) -> ElemType
    ensures { type_given (map_head head) [] (t ∷ []) x [] ≡ Ok result }
{
    match head {
        MapHead::Map => t,
        MapHead::Filter => x,
    }
}

/// The type of what is made of `x` by a skeleton with an argument alone.
pub(crate) fn plain_type(head: PlainHead, x: ElemType) -> ElemType
    ensures { type_given (plain_head head) [] [] x [] ≡ Ok result }
{
    match head {
        PlainHead::Iota => ElemType::one(Width::W64),
        PlainHead::Rev | PlainHead::Plain | PlainHead::Transpose => x,
    }
}

/// The components of both, one after another.
pub(crate) fn joined(a: ElemType, b: ElemType) -> ElemType
    requires { length a + length b ≤ 4 }
    ensures { result ≡ a ++ b }
{
    let mut ty = a;
    for i in 0..b.len() {
        ty = ty.push(b.at(i));
    }
    ty
}

/// Component by component the wider.
#[tactic(auto, using(crate::proofs::TypeLemmas::wider_first, crate::proofs::TypeLemmas::wider_more, crate::proofs::TypeLemmas::wider_all))]
pub(crate) fn wider_each(a: ElemType, b: ElemType) -> ElemType
    requires { length a ≡ length b }
    ensures { result ≡ wider_each a b }
{
    let len = a.len();
    let mut ty = ElemType::one(a.at(0).wider(b.at(0)));
    for i in 1..len {
        ty = ty.push(a.at(i).wider(b.at(i)));
    }
    ty
}

/// The type of what `getchl` or `getchr` makes.
#[tactic(auto, unfolding(crate::specs::Steps::type_at), using(crate::proofs::GroupLemmas::child_type))]
pub(crate) fn child_type(head: ChildHead, x: &Known<'_>) -> Result<ElemType, LineFault>
    ensures { Gives (λ x. x) result (type_at (child_head head) [] [] (known_of x.now) []) }
{
    if x.bound.ty.len() != 1 {
        return Err(at(x.column, ScriptWhat::WrongArity));
    }
    Ok(x.bound.ty)
}

// The shapes of what the line of this number makes of x.
fn shapes_given(head: Head, n: u32, x: &Bound) -> (u32, u32)
    requires { n < 2 ^ 31 - 2 }
    ensures { result ≡ shapes_given head n (binding_of x.now) }
{
    match head {
        Head::Reduce => (0, 0),
        Head::Filter => (2 * n + 1, 0),
        Head::Rows => (x.shape, 0),
        Head::Cols => (x.across, 0),
        Head::Transpose => (x.across, x.shape),
        _ => (x.shape, x.across),
    }
}

/// What the let line of this number binds.
pub(crate) fn let_bound(
    alloc: Global,
    name: &Word<'_>,
    head: Head,
    n: u32,
    x: &Bound,
    ty: ElemType,
) -> Result<Bound, AllocError>
    requires few { n < 2 ^ 31 - 2 }
    requires name { IsTrue (is_name name.now.text) }
    ensures { IfOk result (λ b. binding_of b ≡ let_binding name.now head n (binding_of x.now) ty) }
{
    let name = Name::of(alloc, name.text())?;
    let kind = head.gives(x.kind);
    let (shape, across) = shapes_given(head, n, x);
    Ok(Bound {
        name,
        kind,
        ty,
        shape,
        across,
    })
}
