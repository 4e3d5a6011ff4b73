//! Arithmetic on numbers of 64 bits, modulo 2^64.

ghost use Rattle.std.specs.Prelude.{◌≡◌};
ghost use Rattle.op_catalog.specs.Products.{wrapped_product};
ghost use Rattle.tree_aux.specs.WordTrees.{wrapped_sum, image, weighted};

use op_catalog::Line;

#[inline(always)]
pub(crate) fn sum(a: i64, b: i64) -> i64
    ensures { result ≡ wrapped_sum a b }
{
    a.wrapping_add(b)
}

#[inline(always)]
pub(crate) fn product(a: i64, b: i64) -> i64
    ensures { result ≡ wrapped_product a b }
{
    a.wrapping_mul(b)
}

// What the function of a line makes of a number.
#[inline(always)]
pub(crate) fn image_of(line: Line, y: i64) -> i64
    ensures { result ≡ image line y }
{
    sum(product(line.scale, y), line.offset)
}

// a times x and b times y and c.
#[inline(always)]
pub(crate) fn weighted_sum(a: i64, x: i64, b: i64, y: i64, c: i64) -> i64
    ensures { result ≡ weighted a x b y c }
{
    sum(sum(product(a, x), product(b, y)), c)
}
