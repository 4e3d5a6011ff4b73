//! Scans of blocks.

ghost use Rattle.std.specs.Prelude.{◌≡◌, ◌+◌, ◌-◌, ◌<◌, ◌≤◌, [], ◌∷◌, false, length, reverse, IfOk, IfSome};
ghost use Rattle.std.specs.Prelude.{List as Seq};
ghost use Rattle.op_laws.specs.declared.TheConstants.{MAX_ELEMENTS as MOST};
ghost use Rattle.op_laws.specs.declared.width.Width.{Width as Kind};
ghost use Rattle.op_laws.specs.declared.width.Width.TheVariants.{W64};
ghost use Rattle.op_laws.specs.Admits.{Admits};
ghost use Rattle.op_laws.specs.Elements.{singles};
ghost use Rattle.list_fusion.specs.Columnar.{IsColumnar};
ghost use Rattle.list_fusion.specs.Pipes.{type_of, block_of};
ghost use Rattle.list_fusion.specs.Scans.{scan_after, scanr_before, scan_beside};
ghost use Rattle.list_fusion.specs.Held.{told_of, scanned};

use crate::block::add;
use crate::columns::{FEW, admitted, first_column};
use crate::combining::{advanced, preceded};
use crate::numbers::scan_numbers;
use crate::pipe::Pipe;
use op_laws::{ElemType, List, Semi, Tup};
use std::alloc::{AllocError, Global};

/// For each element of a block, in order, the finished value of the elements up to it with `before`
/// in front; with `back` of the elements from it on, and `before` stands behind them. `before` has
/// the weight `nb`. Where the block keeps no element the list is empty.
pub fn scan_block<M: Semi>(
    alloc: Global,
    pipe: &Pipe,
    op: &M,
    before: Option<M::C>,
    nb: u32,
    from: u32,
    to: u32,
    back: bool,
) -> Result<List, AllocError>
    requires takes { M.takes op.now (type_of pipe.now) }
    requires before { IfSome before (λ c. M.fits op.now c nb) }
    requires ordered { from ≤ to }
    requires within { to ≤ length pipe.now.head.items }
    requires few { nb + (to - from) ≤ MOST }
    ensures ty { IfOk result (λ x. x.ty ≡ M.gives op.now (type_of pipe.now)) }
    ensures items { IfOk result (λ x. x.items ≡ scan_beside (M.finished op.now) (M.lifted op.now) (M.combined op.now) back before (block_of pipe.now from to)) }
{
    if back {
        return scan_from_behind(alloc, pipe, op, before, nb, from, to);
    }
    if let Some(numbers) = pipe.numbers() {
        return scan_slice(
            alloc,
            op,
            pipe.ty(),
            before,
            nb,
            &numbers[from as usize..to as usize],
        );
    }
    if to - from >= FEW && pipe.is_columnar() {
        return scan_columns(alloc, pipe, op, before, nb, from, to);
    }
    scan_on(alloc, pipe, op, before, nb, from, to)
}

fn scan_from_behind<M: Semi>(
    alloc: Global,
    pipe: &Pipe,
    op: &M,
    behind: Option<M::C>,
    nb: u32,
    from: u32,
    to: u32,
) -> Result<List, AllocError>
    requires takes { M.takes op.now (type_of pipe.now) }
    requires behind { IfSome behind (λ c. M.fits op.now c nb) }
    requires ordered { from ≤ to }
    requires within { to ≤ length pipe.now.head.items }
    requires few { nb + (to - from) ≤ MOST }
    ensures ty { IfOk result (λ x. x.ty ≡ M.gives op.now (type_of pipe.now)) }
    ensures items { IfOk result (λ x. x.items ≡ scanr_before (M.finished op.now) (M.lifted op.now) (M.combined op.now) behind (block_of pipe.now from to)) }
{
    if to - from >= FEW && pipe.is_columnar() {
        return scan_columns_back(alloc, pipe, op, behind, nb, from, to);
    }
    scan_back(alloc, pipe, op, behind, nb, from, to)
}

// By columns, 256 places at a time.
#[inline(never)]
fn scan_columns<M: Semi>(
    alloc: Global,
    pipe: &Pipe,
    op: &M,
    before: Option<M::C>,
    nb: u32,
    from: u32,
    to: u32,
) -> Result<List, AllocError>
    requires columnar { IsColumnar pipe.now }
    requires takes { M.takes op.now (type_of pipe.now) }
    requires before { IfSome before (λ c. M.fits op.now c nb) }
    requires ordered { from ≤ to }
    requires within { to ≤ length pipe.now.head.items }
    requires few { nb + (to - from) ≤ MOST }
    ensures ty { IfOk result (λ x. x.ty ≡ M.gives op.now (type_of pipe.now)) }
    ensures items { IfOk result (λ x. x.items ≡ scan_after (M.finished op.now) (M.lifted op.now) (M.combined op.now) before (block_of pipe.now from to)) }
{
    let mut columns = [[0; 256]; 4];
    let mut stack = [[0; 256]; 8];
    let mut list = List::new(alloc, op.result(pipe.ty()));
    let (mut at, mut held) = (from, before);
    while at < to {
        let next = at + (to - at).min(256);
        let kept = pipe.part(at, next, false, &mut columns, &mut stack);
        let numbers = first_column(&columns, kept);
        admitted(numbers);
        held = scan_numbers(&mut list, op, held, nb + (at - from), numbers, false)?;
        at = next;
    }
    Ok(list)
}

// The same from the last place to the first, and then turned round.
#[inline(never)]
fn scan_columns_back<M: Semi>(
    alloc: Global,
    pipe: &Pipe,
    op: &M,
    behind: Option<M::C>,
    nb: u32,
    from: u32,
    to: u32,
) -> Result<List, AllocError>
    requires columnar { IsColumnar pipe.now }
    requires takes { M.takes op.now (type_of pipe.now) }
    requires behind { IfSome behind (λ c. M.fits op.now c nb) }
    requires ordered { from ≤ to }
    requires within { to ≤ length pipe.now.head.items }
    requires few { nb + (to - from) ≤ MOST }
    ensures ty { IfOk result (λ x. x.ty ≡ M.gives op.now (type_of pipe.now)) }
    ensures items { IfOk result (λ x. x.items ≡ scanr_before (M.finished op.now) (M.lifted op.now) (M.combined op.now) behind (block_of pipe.now from to)) }
{
    let mut columns = [[0; 256]; 4];
    let mut stack = [[0; 256]; 8];
    let mut list = List::new(alloc, op.result(pipe.ty()));
    let (mut at, mut held) = (to, behind);
    while at > from {
        let next = at - (at - from).min(256);
        let kept = pipe.part(next, at, true, &mut columns, &mut stack);
        let numbers = first_column(&columns, kept);
        admitted(numbers);
        held = scan_numbers(&mut list, op, held, nb + (to - at), numbers, true)?;
        at = next;
    }
    Ok(turned_round(list))
}

// Of numbers that lie side by side.
fn scan_slice<M: Semi>(
    alloc: Global,
    op: &M,
    ty: ElemType,
    before: Option<M::C>,
    nb: u32,
    numbers: &[i64],
) -> Result<List, AllocError>
    requires ty { ty ≡ W64 ∷ [] }
    requires takes { M.takes op.now ty }
    requires before { IfSome before (λ c. M.fits op.now c nb) }
    requires few { nb + length numbers.now ≤ MOST }
    ensures ty { IfOk result (λ x. x.ty ≡ M.gives op.now ty) }
    ensures items { IfOk result (λ x. x.items ≡ scanned (M.lifted op.now) (M.combined op.now) (M.finished op.now) false before (singles numbers.now)) }
{
    let mut list = List::new(alloc, op.result(ty));
    scan_numbers(&mut list, op, before, nb, numbers, false)?;
    Ok(list)
}

fn scan_on<M: Semi>(
    alloc: Global,
    pipe: &Pipe,
    op: &M,
    before: Option<M::C>,
    nb: u32,
    from: u32,
    to: u32,
) -> Result<List, AllocError>
    requires takes { M.takes op.now (type_of pipe.now) }
    requires before { IfSome before (λ c. M.fits op.now c nb) }
    requires ordered { from ≤ to }
    requires within { to ≤ length pipe.now.head.items }
    requires few { nb + (to - from) ≤ MOST }
    ensures ty { IfOk result (λ x. x.ty ≡ M.gives op.now (type_of pipe.now)) }
    ensures items { IfOk result (λ x. x.items ≡ scan_after (M.finished op.now) (M.lifted op.now) (M.combined op.now) before (block_of pipe.now from to)) }
{
    let mut list = List::new(alloc, op.result(pipe.ty()));
    let mut held = before;
    for i in from..to {
        let e = pipe.element(i);
        let kept = e.is_some();
        held = advanced(op, held, nb + (i - from), e);
        add(&mut list, told(op, kept, held, nb + (i - from) + 1))?;
    }
    Ok(list)
}

// From the last place to the first, so that each value needs one step, and then turned round.
fn scan_back<M: Semi>(
    alloc: Global,
    pipe: &Pipe,
    op: &M,
    behind: Option<M::C>,
    nb: u32,
    from: u32,
    to: u32,
) -> Result<List, AllocError>
    requires takes { M.takes op.now (type_of pipe.now) }
    requires behind { IfSome behind (λ c. M.fits op.now c nb) }
    requires ordered { from ≤ to }
    requires within { to ≤ length pipe.now.head.items }
    requires few { nb + (to - from) ≤ MOST }
    ensures ty { IfOk result (λ x. x.ty ≡ M.gives op.now (type_of pipe.now)) }
    ensures items { IfOk result (λ x. x.items ≡ scanr_before (M.finished op.now) (M.lifted op.now) (M.combined op.now) behind (block_of pipe.now from to)) }
{
    let mut list = List::new(alloc, op.result(pipe.ty()));
    let mut held = behind;
    for k in 0..to - from {
        let e = pipe.element(to - 1 - k);
        let kept = e.is_some();
        held = preceded(op, e, held, nb + k);
        add(&mut list, told(op, kept, held, nb + k + 1))?;
    }
    Ok(turned_round(list))
}

// The list turned round.
fn turned_round(list: List) -> List
    ensures items { result.items ≡ reverse list.items }
    ensures ty { result.ty ≡ list.ty }
{
    let mut list = list;
    list.reverse();
    list
}

// The element that what is held stands for, where the last place kept one.
#[inline(always)]
fn told<M: Semi>(op: &M, kept: bool, held: Option<M::C>, n: u32) -> Option<Tup>
    requires few { n ≤ MOST }
    requires held { IfSome held (λ c. M.fits op.now c n) }
    ensures value { result ≡ told_of (M.finished op.now) kept held }
    ensures admitted { (ty : Seq Kind) → M.takes op.now ty → IfSome result (Admits (M.gives op.now ty)) }
{
    match held {
        Some(c) if kept => Some(op.finish(c, n)),
        _ => None,
    }
}
