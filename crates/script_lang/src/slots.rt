//! What stands after the word of a skeleton.
ghost use Rattle.std.specs.Prelude.{◌≡◌, ◌<◌, ◌^◌, [], ◌∷◌, length, IfOk};
ghost use Rattle.script_words.specs.Read.{Gives};
ghost use Rattle.script_lang.specs.declared.head.Head.TheVariants as heads;
ghost use Rattle.script_lang.specs.Grammar.{a_function, an_operator, a_number, an_argument, slots_of, no_parts, slots_at, more_than_one};
ghost use Rattle.script_lang.specs.Groups.{map_head, plain_head, fold_head, flat_head, child_head};
ghost use Rattle.script_lang.specs.Views.{head_of, written_of};

use crate::form::Written;
use crate::head::{BothHead, ChildHead, FlatHead, FoldHead, Head, MapHead, PlainHead};
use script_words::{LineFault, Word, function_at, name_at, number_at};
use std::alloc::Global;

#[tactic(auto, unfolding(crate::specs::Grammar::slots_at, crate::specs::Grammar::slot_at))]
fn mapped_at<'a, 'b>(
    alloc: Global,
    head: MapHead,
    end: u32,
    words: &'b [Word<'a>],
) -> Result<(Written<'a>, &'b [Word<'a>]), LineFault>
    requires few { length words.now < 2 ^ 32 }
    ensures gives { Gives (λ x. (written_of x.0, x.1.now)) result (slots_at (a_function ∷ an_argument ∷ []) no_parts end words.now) }
    ensures head { IfOk result (λ x. head_of x.0 ≡ map_head head) }
{
    let (f, rest) = function_at(alloc, end, words)?;
    let (x, rest) = name_at(end, rest)?;
    let x = x.again();
    Ok((Written::Mapped { head, f, x }, rest))
}

#[tactic(auto, unfolding(crate::specs::Grammar::slots_at, crate::specs::Grammar::slot_at))]
fn mapln_at<'a, 'b>(
    alloc: Global,
    end: u32,
    words: &'b [Word<'a>],
) -> Result<(Written<'a>, &'b [Word<'a>]), LineFault>
    requires few { length words.now < 2 ^ 32 }
    ensures gives { Gives (λ x. (written_of x.0, x.1.now)) result (slots_at (slots_of heads.Mapln) no_parts end words.now) }
    ensures head { IfOk result (λ x. head_of x.0 ≡ heads.Mapln) }
{
    let (leaf, rest) = function_at(alloc, end, words)?;
    let (node, rest) = function_at(alloc, end, rest)?;
    let (x, rest) = name_at(end, rest)?;
    let x = x.again();
    Ok((Written::Mapln { leaf, node, x }, rest))
}

#[tactic(auto, unfolding(crate::specs::Grammar::slots_at, crate::specs::Grammar::slot_at))]
fn zip_at<'a, 'b>(
    end: u32,
    words: &'b [Word<'a>],
) -> Result<(Written<'a>, &'b [Word<'a>]), LineFault>
    ensures gives { Gives (λ x. (written_of x.0, x.1.now)) result (slots_at (slots_of heads.Zip) no_parts end words.now) }
    ensures head { IfOk result (λ x. head_of x.0 ≡ heads.Zip) }
{
    let (x, rest) = name_at(end, words)?;
    let (y, rest) = name_at(end, rest)?;
    let x = x.again();
    let y = y.again();
    Ok((Written::Zip { x, y }, rest))
}

#[tactic(auto, unfolding(crate::specs::Grammar::slots_at, crate::specs::Grammar::slot_at))]
fn plain_at<'a, 'b>(
    head: PlainHead,
    end: u32,
    words: &'b [Word<'a>],
) -> Result<(Written<'a>, &'b [Word<'a>]), LineFault>
    ensures gives { Gives (λ x. (written_of x.0, x.1.now)) result (slots_at (an_argument ∷ []) no_parts end words.now) }
    ensures head { IfOk result (λ x. head_of x.0 ≡ plain_head head) }
{
    let (x, rest) = name_at(end, words)?;
    let x = x.again();
    Ok((Written::Plain { head, x }, rest))
}

#[tactic(auto, unfolding(crate::specs::Grammar::slots_at, crate::specs::Grammar::slot_at))]
fn folded_at<'a, 'b>(
    head: FoldHead,
    end: u32,
    words: &'b [Word<'a>],
) -> Result<(Written<'a>, &'b [Word<'a>]), LineFault>
    ensures gives { Gives (λ x. (written_of x.0, x.1.now)) result (slots_at (an_operator ∷ an_argument ∷ []) no_parts end words.now) }
    ensures head { IfOk result (λ x. head_of x.0 ≡ fold_head head) }
{
    let (op, rest) = name_at(end, words)?;
    let (x, rest) = name_at(end, rest)?;
    let op = op.again();
    let x = x.again();
    Ok((Written::Folded { head, op, x }, rest))
}

#[tactic(auto, unfolding(crate::specs::Grammar::slots_at, crate::specs::Grammar::slot_at))]
fn flat_at<'a, 'b>(
    head: FlatHead,
    end: u32,
    words: &'b [Word<'a>],
) -> Result<(Written<'a>, &'b [Word<'a>]), LineFault>
    ensures gives { Gives (λ x. (written_of x.0, x.1.now)) result (slots_at (an_operator ∷ an_argument ∷ []) no_parts end words.now) }
    ensures head { IfOk result (λ x. head_of x.0 ≡ flat_head head) }
{
    let (op, rest) = name_at(end, words)?;
    let (x, rest) = name_at(end, rest)?;
    let op = op.again();
    let x = x.again();
    Ok((Written::Flat { head, op, x }, rest))
}

// Whether more than one word is left.
fn more_than_one(words: &[Word<'_>]) -> bool
    ensures { result ≡ more_than_one words.now }
{
    match words.split_first() {
        None => false,
        Some((_, rest)) => match rest.split_first() {
            None => false,
            Some(_) => true,
        },
    }
}

// `reduce` with one operator or two.
#[tactic(auto, unfolding(crate::specs::Grammar::slots_at, crate::specs::Grammar::slot_at))]
fn reduce_at<'a, 'b>(
    end: u32,
    words: &'b [Word<'a>],
) -> Result<(Written<'a>, &'b [Word<'a>]), LineFault>
    ensures gives { Gives (λ x. (written_of x.0, x.1.now)) result (slots_at (slots_of heads.Reduce) no_parts end words.now) }
    ensures head { IfOk result (λ x. head_of x.0 ≡ heads.Reduce) }
{
    let (op, rest) = name_at(end, words)?;
    let op = op.again();
    if more_than_one(rest) {
        let head = BothHead::Reduce;
        let (across, rest) = name_at(end, rest)?;
        let (x, rest) = name_at(end, rest)?;
        let down = op;
        let across = across.again();
        let x = x.again();
        let written = Written::Both {
            head,
            down,
            across,
            x,
        };
        return Ok((written, rest));
    }
    let head = FoldHead::Reduce;
    let (x, rest) = name_at(end, rest)?;
    let x = x.again();
    Ok((Written::Folded { head, op, x }, rest))
}

// `scan` with one operator or two.
#[tactic(auto, unfolding(crate::specs::Grammar::slots_at, crate::specs::Grammar::slot_at))]
fn scan_at<'a, 'b>(
    end: u32,
    words: &'b [Word<'a>],
) -> Result<(Written<'a>, &'b [Word<'a>]), LineFault>
    ensures gives { Gives (λ x. (written_of x.0, x.1.now)) result (slots_at (slots_of heads.Scan) no_parts end words.now) }
    ensures head { IfOk result (λ x. head_of x.0 ≡ heads.Scan) }
{
    let (op, rest) = name_at(end, words)?;
    let op = op.again();
    if more_than_one(rest) {
        let head = BothHead::Scan;
        let (across, rest) = name_at(end, rest)?;
        let (x, rest) = name_at(end, rest)?;
        let down = op;
        let across = across.again();
        let x = x.again();
        let written = Written::Both {
            head,
            down,
            across,
            x,
        };
        return Ok((written, rest));
    }
    let head = FlatHead::Scan;
    let (x, rest) = name_at(end, rest)?;
    let x = x.again();
    Ok((Written::Flat { head, op, x }, rest))
}

#[tactic(auto, unfolding(crate::specs::Grammar::slots_at, crate::specs::Grammar::slot_at))]
fn dacc_at<'a, 'b>(
    end: u32,
    words: &'b [Word<'a>],
) -> Result<(Written<'a>, &'b [Word<'a>]), LineFault>
    ensures gives { Gives (λ x. (written_of x.0, x.1.now)) result (slots_at (slots_of heads.Dacc) no_parts end words.now) }
    ensures head { IfOk result (λ x. head_of x.0 ≡ heads.Dacc) }
{
    let (op, rest) = name_at(end, words)?;
    let (start, rest) = number_at(end, rest)?;
    let (x, rest) = name_at(end, rest)?;
    let op = op.again();
    let x = x.again();
    Ok((Written::Dacc { op, start, x }, rest))
}

#[tactic(auto, unfolding(crate::specs::Grammar::slots_at, crate::specs::Grammar::slot_at))]
fn child_at<'a, 'b>(
    head: ChildHead,
    end: u32,
    words: &'b [Word<'a>],
) -> Result<(Written<'a>, &'b [Word<'a>]), LineFault>
    ensures gives { Gives (λ x. (written_of x.0, x.1.now)) result (slots_at (a_number ∷ an_argument ∷ []) no_parts end words.now) }
    ensures head { IfOk result (λ x. head_of x.0 ≡ child_head head) }
{
    let (start, rest) = number_at(end, words)?;
    let (x, rest) = name_at(end, rest)?;
    let x = x.again();
    Ok((Written::Child { head, start, x }, rest))
}

/// The skeleton of this word, and the words after it.
pub(crate) fn slots_at<'a, 'b>(
    alloc: Global,
    head: Head,
    end: u32,
    words: &'b [Word<'a>],
) -> Result<(Written<'a>, &'b [Word<'a>]), LineFault>
    requires few { length words.now < 2 ^ 32 }
    ensures gives { Gives (λ x. (written_of x.0, x.1.now)) result (slots_at (slots_of head) no_parts end words.now) }
    ensures head { IfOk result (λ x. head_of x.0 ≡ head) }
{
    match head {
        Head::Map => mapped_at(alloc, MapHead::Map, end, words),
        Head::Filter => mapped_at(alloc, MapHead::Filter, end, words),
        Head::Mapln => mapln_at(alloc, end, words),
        Head::Zip => zip_at(end, words),
        Head::Rev => plain_at(PlainHead::Rev, end, words),
        Head::Iota => plain_at(PlainHead::Iota, end, words),
        Head::Plain => plain_at(PlainHead::Plain, end, words),
        Head::Transpose => plain_at(PlainHead::Transpose, end, words),
        Head::Reduce => reduce_at(end, words),
        Head::Scan => scan_at(end, words),
        Head::Scanr => flat_at(FlatHead::Scanr, end, words),
        Head::Rows => flat_at(FlatHead::Rows, end, words),
        Head::Cols => flat_at(FlatHead::Cols, end, words),
        Head::Uacc => folded_at(FoldHead::Uacc, end, words),
        Head::Dacc => dacc_at(end, words),
        Head::Getchl => child_at(ChildHead::Left, end, words),
        Head::Getchr => child_at(ChildHead::Right, end, words),
    }
}
