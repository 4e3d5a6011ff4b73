//! The types that operators give.
ghost use Rattle.std.specs.Prelude.{◌≡◌, [], ◌∷◌, Ok};
ghost use Rattle.script_words.specs.Read.{Gives};
ghost use Rattle.script_lang.specs.Tables.{op_typed, second_governs};
ghost use Rattle.script_lang.specs.Steps.{typed_at, type_at, unit_at};
ghost use Rattle.script_lang.specs.declared.op.Op.TheVariants as op_word;
ghost use Rattle.script_lang.specs.declared.head.Head.TheVariants as heads;
ghost use Rattle.script_lang.specs.Groups.{fold_head, flat_head, both_head};
ghost use Rattle.script_lang.specs.Views.{known_of, fold_op, drop_op};

use crate::head::{BothHead, FlatHead, FoldHead};
use crate::kind::Kind;
use crate::known::Known;
use crate::op::Op;
use crate::skel::{Drop2, Fold};
use op_catalog::{ListOp, OpFault};
use op_laws::ElemType;
use script_words::{LineFault, ScriptWhat, at};

fn op_typed(op: Op, ty: ElemType) -> Result<ElemType, OpFault>
    ensures { result ≡ op_typed op ty }
{
    match op {
        Op::Flat(op) => op.typed(ty),
        Op::Up(op) => op.typed(ty),
        Op::Down(op) => op.typed(ty),
        Op::Rose(op) => op.typed(ty),
        Op::RoseDown(op) => op.typed(ty),
    }
}

// The type that an operator gives, or its fault at this column.
fn typed_at(column: u32, op: Op, ty: ElemType) -> Result<ElemType, LineFault>
    ensures { Gives (λ x. x) result (typed_at column (op_typed op ty)) }
{
    match op_typed(op, ty) {
        Ok(ty) => Ok(ty),
        Err(OpFault::WrongArity) => Err(at(column, ScriptWhat::WrongArity)),
        Err(OpFault::TooWide) => Err(at(column, ScriptWhat::TooWide)),
    }
}

/// The type of what `reduce` or `uacc` makes.
#[tactic(auto, unfolding(crate::specs::Steps::type_at), using(crate::proofs::GroupLemmas::fold_type))]
pub(crate) fn fold_type(
    head: FoldHead,
    op: Fold,
    column: u32,
    x: &Known<'_>,
) -> Result<ElemType, LineFault>
    ensures { Gives (λ x. x) result (type_at (fold_head head) (record { column = column; op = fold_op op } ∷ []) [] (known_of x.now) []) }
{
    typed_at(column, op.op(), x.bound.ty)
}

/// The reduction of a list has a unit.
#[tactic(auto, unfolding(crate::specs::Steps::unit_at))]
pub(crate) fn fold_unit(head: FoldHead, op: Fold, column: u32, kind: Kind) -> Result<(), LineFault>
    ensures { Gives (λ u. u) result (unit_at (record { column = column; op = fold_op op } ∷ []) (fold_head head) kind) }
{
    match head {
        FoldHead::Uacc => Ok(()),
        FoldHead::Reduce => {
            if kind.is(Kind::List) && op.is_end() {
                return Err(at(column, ScriptWhat::NoUnit));
            }
            Ok(())
        }
    }
}

/// The type of what a skeleton with one operator on lists and matrices makes. It needs no unit.
#[tactic(auto, unfolding(crate::specs::Steps::type_at, crate::specs::Steps::unit_at), using(crate::proofs::GroupLemmas::flat_type, crate::proofs::GroupLemmas::flat_unit))]
pub(crate) fn flat_type(
    head: FlatHead,
    op: ListOp,
    column: u32,
    x: &Known<'_>,
) -> Result<ElemType, LineFault>
    ensures gives { Gives (λ x. x) result (type_at (flat_head head) (record { column = column; op = op_word.Flat op } ∷ []) [] (known_of x.now) []) }
    ensures unit { unit_at (record { column = column; op = op_word.Flat op } ∷ []) (flat_head head) x.now.bound.now.kind ≡ Ok tt }
{
    typed_at(column, Op::Flat(op), x.bound.ty)
}

// Whether the second of two operators says the type.
fn second_governs(down: ListOp, across: ListOp) -> bool
    ensures { result ≡ second_governs (op_word.Flat down) (op_word.Flat across) }
{
    !down.has_unit() && across.has_unit()
}

/// The type of what a skeleton with two operators makes. It needs no unit.
#[tactic(auto, unfolding(crate::specs::Steps::type_at, crate::specs::Steps::unit_at), using(crate::proofs::GroupLemmas::both_type))]
pub(crate) fn both_type(
    head: BothHead,
    down: ListOp,
    across: ListOp,
    down_column: u32,
    across_column: u32,
    x: &Known<'_>,
) -> Result<ElemType, LineFault>
    ensures gives { Gives (λ x. x) result (type_at (both_head head) (record { column = down_column; op = op_word.Flat down } ∷ record { column = across_column; op = op_word.Flat across } ∷ []) [] (known_of x.now) []) }
    ensures unit { unit_at (record { column = down_column; op = op_word.Flat down } ∷ record { column = across_column; op = op_word.Flat across } ∷ []) (both_head head) x.now.bound.now.kind ≡ Ok tt }
{
    if second_governs(down, across) {
        return typed_at(across_column, Op::Flat(across), x.bound.ty);
    }
    typed_at(down_column, Op::Flat(down), x.bound.ty)
}

/// The type of what `dacc` makes. It needs no unit.
#[tactic(auto, unfolding(crate::specs::Steps::type_at, crate::specs::Steps::unit_at))]
pub(crate) fn drop_type(op: Drop2, column: u32, x: &Known<'_>) -> Result<ElemType, LineFault>
    ensures gives { Gives (λ x. x) result (type_at heads.Dacc (record { column = column; op = drop_op op } ∷ []) [] (known_of x.now) []) }
    ensures unit { unit_at (record { column = column; op = drop_op op } ∷ []) heads.Dacc x.now.bound.now.kind ≡ Ok tt }
{
    typed_at(column, op.op(), x.bound.ty)
}
