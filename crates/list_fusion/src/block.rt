//! Folds of blocks, and blocks as lists.

ghost use Rattle.std.specs.Prelude.{◌≡◌, ◌+◌, ◌-◌, ◌<◌, ◌≤◌, ◌++◌, length, reverse, slice_range, IfOk, IfSome, OnOk};
ghost use Rattle.std.specs.List.{All};
ghost use Rattle.std.specs.Option.{option_to_list};
ghost use Rattle.op_laws.specs.declared.TheConstants.{MAX_ELEMENTS as MOST};
ghost use Rattle.op_laws.specs.Admits.{Admits};
ghost use Rattle.op_laws.specs.Folds.{fold_of};
ghost use Rattle.list_fusion.specs.Columnar.{IsColumnar};
ghost use Rattle.list_fusion.specs.Pipes.{type_of, block_of};

use crate::columns::{FEW, admitted, first_column};
use crate::combining::advanced;
use crate::numbers::fold_numbers;
use crate::pipe::Pipe;
use op_laws::{List, Semi, Tup};
use std::alloc::{AllocError, Global};

/// The values of a block's elements, combined in order; none where the block keeps no element. The
/// block is what the stages make of the head's places from `from` up to before `to`, counted in the
/// pipe's direction. The value's weight is the count of these places. It takes no memory and builds
/// no list; long blocks of numbers of w64 go by columns of 256 numbers, 24 KiB on the stack.
pub fn fold_block<M: Semi>(pipe: &Pipe, op: &M, from: u32, to: u32) -> Option<M::C>
    requires takes { M.takes op.now (type_of pipe.now) }
    requires ordered { from ≤ to }
    requires within { to ≤ length pipe.now.head.items }
    ensures value { result ≡ fold_of (M.lifted op.now) (M.combined op.now) (block_of pipe.now from to) }
    ensures fits { IfSome result (λ c. M.fits op.now c (to - from)) }
    // By this it is known of a whole list whose blocks were folded that the operator takes it.
    ensures admitted { All (Admits (type_of pipe.now)) (block_of pipe.now from to) }
{
    if let Some(numbers) = pipe.numbers() {
        return fold_numbers(op, None, 0, &numbers[from as usize..to as usize]);
    }
    if to - from >= FEW && pipe.is_columnar() {
        return fold_columns(pipe, op, from, to);
    }
    fold_elements(pipe, op, from, to)
}

// By columns, 256 places at a time.
#[inline(never)]
fn fold_columns<M: Semi>(pipe: &Pipe, op: &M, from: u32, to: u32) -> Option<M::C>
    requires columnar { IsColumnar pipe.now }
    requires takes { M.takes op.now (type_of pipe.now) }
    requires ordered { from ≤ to }
    requires within { to ≤ length pipe.now.head.items }
    ensures value { result ≡ fold_of (M.lifted op.now) (M.combined op.now) (block_of pipe.now from to) }
    ensures fits { IfSome result (λ c. M.fits op.now c (to - from)) }
    ensures admitted { All (Admits (type_of pipe.now)) (block_of pipe.now from to) }
{
    let mut columns = [[0; 256]; 4];
    let mut stack = [[0; 256]; 8];
    let mut held = None;
    let mut at = from;
    while at < to {
        let next = at + (to - at).min(256);
        let kept = pipe.part(at, next, false, &mut columns, &mut stack);
        let numbers = first_column(&columns, kept);
        admitted(numbers);
        held = fold_numbers(op, held, at - from, numbers);
        at = next;
    }
    held
}

// Element by element.
fn fold_elements<M: Semi>(pipe: &Pipe, op: &M, from: u32, to: u32) -> Option<M::C>
    requires takes { M.takes op.now (type_of pipe.now) }
    requires ordered { from ≤ to }
    requires within { to ≤ length pipe.now.head.items }
    ensures value { result ≡ fold_of (M.lifted op.now) (M.combined op.now) (block_of pipe.now from to) }
    ensures fits { IfSome result (λ c. M.fits op.now c (to - from)) }
    ensures admitted { All (Admits (type_of pipe.now)) (block_of pipe.now from to) }
{
    let mut held = None;
    for i in from..to {
        held = advanced(op, held, i - from, pipe.element(i));
    }
    held
}

/// A block's elements as a list.
pub fn build_block(alloc: Global, pipe: &Pipe, from: u32, to: u32) -> Result<List, AllocError>
    requires ordered { from ≤ to }
    requires within { to ≤ length pipe.now.head.items }
    ensures ty { IfOk result (λ x. x.ty ≡ type_of pipe.now) }
    ensures items { IfOk result (λ x. x.items ≡ block_of pipe.now from to) }
{
    if let Some(list) = pipe.list() {
        if pipe.is_reversed() {
            return part_from_behind(alloc, list, from, to);
        }
        return part_of(alloc, list, from, to);
    }
    if to - from >= FEW && pipe.is_columnar() {
        return build_columns(alloc, pipe, from, to);
    }
    build_elements(alloc, pipe, from, to)
}

// By columns, 256 places at a time. The numbers become the list's column as they are.
#[inline(never)]
fn build_columns(alloc: Global, pipe: &Pipe, from: u32, to: u32) -> Result<List, AllocError>
    requires columnar { IsColumnar pipe.now }
    requires ordered { from ≤ to }
    requires within { to ≤ length pipe.now.head.items }
    ensures ty { IfOk result (λ x. x.ty ≡ type_of pipe.now) }
    ensures items { IfOk result (λ x. x.items ≡ block_of pipe.now from to) }
{
    let mut columns = [[0; 256]; 4];
    let mut stack = [[0; 256]; 8];
    let mut numbers = Vec::new(alloc);
    let mut at = from;
    while at < to {
        let next = at + (to - at).min(256);
        let kept = pipe.part(at, next, false, &mut columns, &mut stack);
        numbers.extend_from_slice(first_column(&columns, kept))?;
        at = next;
    }
    Ok(List::of_w64(numbers))
}

// The part of a list, column by column.
fn part_of(alloc: Global, list: &List, from: u32, to: u32) -> Result<List, AllocError>
    requires ordered { from ≤ to }
    requires within { to ≤ length list.now.items }
    ensures ty { IfOk result (λ x. x.ty ≡ list.now.ty) }
    ensures items { IfOk result (λ x. x.items ≡ slice_range list.now.items from to) }
{
    let mut part = List::new(alloc, list.ty());
    part.append_range(list, from, to)?;
    Ok(part)
}

// The part of a list that is turned round, column by column.
fn part_from_behind(alloc: Global, list: &List, from: u32, to: u32) -> Result<List, AllocError>
    requires ordered { from ≤ to }
    requires within { to ≤ length list.now.items }
    ensures ty { IfOk result (λ x. x.ty ≡ list.now.ty) }
    ensures items { IfOk result (λ x. x.items ≡ slice_range (reverse list.now.items) from to) }
{
    let mut part = List::new(alloc, list.ty());
    part.append_range(list, list.len() - to, list.len() - from)?;
    part.reverse();
    Ok(part)
}

// Element by element.
fn build_elements(alloc: Global, pipe: &Pipe, from: u32, to: u32) -> Result<List, AllocError>
    requires ordered { from ≤ to }
    requires within { to ≤ length pipe.now.head.items }
    ensures ty { IfOk result (λ x. x.ty ≡ type_of pipe.now) }
    ensures items { IfOk result (λ x. x.items ≡ block_of pipe.now from to) }
{
    let mut list = List::new(alloc, pipe.ty());
    for i in from..to {
        add(&mut list, pipe.element(i))?;
    }
    Ok(list)
}

// Adds the element, if there is one.
#[inline(always)]
pub(crate) fn add(list: &mut List, e: Option<Tup>) -> Result<(), AllocError>
    requires admitted { IfSome e (Admits list.old.ty) }
    requires room { length list.old.items < MOST }
    ensures items { OnOk result (list.new.items ≡ list.old.items ++ option_to_list e) }
    ensures ty { list.new.ty ≡ list.old.ty }
{
    match e {
        None => Ok(()),
        Some(e) => list.push(e),
    }
}
