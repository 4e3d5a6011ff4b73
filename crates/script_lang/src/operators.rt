//! Operators as they are written.
ghost use Rattle.std.specs.Prelude.{◌≡◌, true, false, option_map};
ghost use Rattle.script_words.specs.declared.fault.ScriptWhat.TheVariants as whats;
ghost use Rattle.script_words.specs.Read.{Gives, or_fault};
ghost use Rattle.script_lang.specs.Tables.{op_of_name, is_end_op, is_dacc, takes_kind};
ghost use Rattle.script_lang.specs.declared.head.Head.TheVariants as heads;
ghost use Rattle.script_lang.specs.Groups.{is_flat_kind, fold_head, flat_head, both_head};
ghost use Rattle.script_lang.specs.declared.op.Op.TheVariants as op_word;
ghost use Rattle.script_lang.specs.Views.{fold_op, drop_op};

use crate::head::{BothHead, FlatHead, FoldHead};
use crate::kind::Kind;
use crate::op::Op;
use crate::skel::{Drop2, Fold};
use op_catalog::ListOp;
use script_words::{LineFault, ScriptWhat, Word, at};
use tree_names::{DownName, RoseDownName, RoseName, TreeName};

impl Fold {
    pub(crate) fn op(self) -> Op
        ensures { result ≡ fold_op self }
    {
        match self {
            Fold::Flat(op) => Op::Flat(op),
            Fold::Up(op) => Op::Up(op),
            Fold::Rose(op) => Op::Rose(op),
        }
    }

    // Whether it answers one of the elements.
    pub(crate) fn is_end(self) -> bool
        ensures { result ≡ is_end_op (fold_op self) }
    {
        match self {
            Fold::Flat(op) => !op.has_unit(),
            Fold::Up(_) | Fold::Rose(_) => false,
        }
    }
}

impl Drop2 {
    pub(crate) fn op(self) -> Op
        ensures { result ≡ drop_op self }
    {
        match self {
            Drop2::Down(op) => Op::Down(op),
            Drop2::Rose(op) => Op::RoseDown(op),
        }
    }
}

fn fold_of(kind: Kind, text: &[u8]) -> Option<Fold>
    ensures { option_map fold_op result ≡ op_of_name false kind text.now }
{
    match kind {
        Kind::Tree => match TreeName::of_name(text) {
            Some(op) => Some(Fold::Up(op)),
            None => None,
        },
        Kind::Rose => match RoseName::of_name(text) {
            Some(op) => Some(Fold::Rose(op)),
            None => None,
        },
        Kind::Single | Kind::List | Kind::Matrix => match ListOp::of_name(text) {
            Some(op) => Some(Fold::Flat(op)),
            None => None,
        },
    }
}

// The operator of this name that reduces values of this kind.
fn fold_named(kind: Kind, word: &Word<'_>) -> Result<Fold, LineFault>
    ensures { Gives fold_op result (or_fault (op_of_name false kind word.now.text) word.now.column whats.UnknownOp) }
{
    match fold_of(kind, word.text()) {
        Some(op) => Ok(op),
        None => Err(at(word.column(), ScriptWhat::UnknownOp)),
    }
}

/// The operator of `reduce` or `uacc`.
#[tactic(auto, using(crate::proofs::GroupLemmas::fold_up))]
pub(crate) fn fold_at(head: FoldHead, kind: Kind, word: &Word<'_>) -> Result<Fold, LineFault>
    ensures { Gives fold_op result (or_fault (op_of_name (is_dacc (fold_head head)) kind word.now.text) word.now.column whats.UnknownOp) }
{
    fold_named(kind, word)
}

fn flat_of(kind: Kind, text: &[u8]) -> Option<ListOp>
    requires { is_flat_kind kind ≡ true }
    ensures { option_map op_word.Flat result ≡ op_of_name false kind text.now }
{
    match kind {
        Kind::Single | Kind::List | Kind::Matrix => ListOp::of_name(text),
        Kind::Tree | Kind::Rose => unreachable!(),
    }
}

// The operator of this name on lists and matrices.
fn flat_named(kind: Kind, word: &Word<'_>) -> Result<ListOp, LineFault>
    requires { is_flat_kind kind ≡ true }
    ensures { Gives op_word.Flat result (or_fault (op_of_name false kind word.now.text) word.now.column whats.UnknownOp) }
{
    match flat_of(kind, word.text()) {
        Some(op) => Ok(op),
        None => Err(at(word.column(), ScriptWhat::UnknownOp)),
    }
}

/// The operator of a skeleton with one operator on lists and matrices.
#[tactic(auto, using(crate::proofs::GroupLemmas::flat_up, crate::proofs::GroupLemmas::flat_kind))]
pub(crate) fn flat_at(head: FlatHead, kind: Kind, word: &Word<'_>) -> Result<ListOp, LineFault>
    requires { takes_kind (flat_head head) 1 kind ≡ true }
    ensures { Gives op_word.Flat result (or_fault (op_of_name (is_dacc (flat_head head)) kind word.now.text) word.now.column whats.UnknownOp) }
{
    flat_named(kind, word)
}

/// One of two operators.
#[tactic(auto, using(crate::proofs::GroupLemmas::both_up, crate::proofs::GroupLemmas::both_kind))]
pub(crate) fn both_at(head: BothHead, kind: Kind, word: &Word<'_>) -> Result<ListOp, LineFault>
    requires { takes_kind (both_head head) 2 kind ≡ true }
    ensures { Gives op_word.Flat result (or_fault (op_of_name (is_dacc (both_head head)) kind word.now.text) word.now.column whats.UnknownOp) }
{
    flat_named(kind, word)
}

fn drop_of(kind: Kind, text: &[u8]) -> Option<Drop2>
    requires { takes_kind heads.Dacc 1 kind ≡ true }
    ensures { option_map drop_op result ≡ op_of_name true kind text.now }
{
    match kind {
        Kind::Tree => match DownName::of_name(text) {
            Some(op) => Some(Drop2::Down(op)),
            None => None,
        },
        Kind::Rose => match RoseDownName::of_name(text) {
            Some(op) => Some(Drop2::Rose(op)),
            None => None,
        },
        Kind::Single | Kind::List | Kind::Matrix => unreachable!(),
    }
}

/// The operator of `dacc`.
pub(crate) fn drop_at(kind: Kind, word: &Word<'_>) -> Result<Drop2, LineFault>
    requires { takes_kind heads.Dacc 1 kind ≡ true }
    ensures { Gives drop_op result (or_fault (op_of_name true kind word.now.text) word.now.column whats.UnknownOp) }
{
    match drop_of(kind, word.text()) {
        Some(op) => Ok(op),
        None => Err(at(word.column(), ScriptWhat::UnknownOp)),
    }
}
