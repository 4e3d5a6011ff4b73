//! Sums of a function's results, modulo 2^128.

ghost use Rattle.std.specs.Prelude.{◌≡◌, ◌≤◌, true, length};
ghost use Rattle.scalar_expr.specs.Columns.{room_of, is_narrow};

use op_laws::Tup;
use scalar_expr::{Column, Typed};

/// By columns of 256 numbers of 64 bits.
#[inline(never)]
pub(crate) fn sum_narrow(f: &Typed, x: &[i64]) -> i128
    requires narrow { is_narrow f.now.takes f.now.scalars ≡ true }
    requires takes { length f.now.takes ≡ 1 }
    requires room { room_of f.now.scalars ≤ 8 }
{
    let mut stack = [[0i64; 256]; 8];
    let mut total: i128 = 0;
    let mut rest = x;
    while rest.len() > 0 {
        let count = rest.len().min(256);
        let (front, back) = rest.split_at(count);
        f.eval_narrow(&[Column::Narrow(front)], count, &mut stack);
        total = narrow_total(total, &stack[0], count);
        rest = back;
    }
    total
}

/// By columns of 256 numbers of 128 bits.
#[inline(never)]
pub(crate) fn sum_wide(f: &Typed, x: &[i128]) -> i128
    requires takes { length f.now.takes ≡ 1 }
    requires room { room_of f.now.scalars ≤ 8 }
{
    let mut stack = [[0i128; 256]; 8];
    let mut total: i128 = 0;
    let mut rest = x;
    while rest.len() > 0 {
        let count = rest.len().min(256);
        let (front, back) = rest.split_at(count);
        f.eval_wide(&[Column::Wide(front)], count, &mut stack);
        total = wide_total(total, &stack[0], count);
        rest = back;
    }
    total
}

/// Element by element.
#[inline(never)]
pub(crate) fn sum_one(f: &Typed, x: &[i64]) -> i128 {
    let mut total: i128 = 0;
    for v in x {
        let t = Tup::one(*v as i128);
        if f.takes().admits(t) {
            total = total.wrapping_add(f.eval(t).at(0));
        }
    }
    total
}

#[inline(always)]
fn narrow_total(before: i128, column: &[i64; 256], count: usize) -> i128
    requires { count ≤ 256 }
{
    let mut total = before;
    for i in 0..count {
        total = total.wrapping_add(column[i] as i128);
    }
    total
}

#[inline(always)]
fn wide_total(before: i128, column: &[i128; 256], count: usize) -> i128
    requires { count ≤ 256 }
{
    let mut total = before;
    for i in 0..count {
        total = total.wrapping_add(column[i]);
    }
    total
}
