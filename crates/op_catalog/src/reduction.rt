//! Whole lists, reduced element by element.

ghost use Rattle.std.specs.Prelude.{◌≡◌, ◌≤◌, [], ◌∷◌, true, not, length, Some, IsTrue, IsOk};
ghost use Rattle.op_laws.specs.declared.width.Width.TheVariants.{W64};
ghost use Rattle.std.specs.List.{All};
ghost use Rattle.op_laws.specs.Admits.{Admits};
ghost use Rattle.op_laws.specs.Elements.{singles};
ghost use Rattle.op_laws.specs.Folds.{fold_or};
ghost use Rattle.op_catalog.specs.Catalog.{is_end, typed_of, reduction_of};

use crate::list_op::ListOp;
use crate::visitor::{MonoidVisitor, visit_monoid};
use op_laws::{ElemType, List, MAX_ELEMENTS, Monoid, Tup, Width};

// A list to be reduced as a whole.
#[derive(Drop)]
struct Whole<'a> {
    list: &'a List,
}

impl<'a> MonoidVisitor for Whole<'a> {
    type Out = Tup;

    ghost asks = { λ of _ ty. of.list.now.ty ≡ ty };

    ghost gives = { λ of name ty result. reduction_of name ty of.list.now.items ≡ Some result };

    fn visit<M: Monoid>(self, op: &M, _name: ListOp, _ty: ElemType) -> Tup {
        self.list.admitted();
        folded(self.list, op)
    }
}

// The elements' values combined in order, as a result.
#[inline(always)]
fn folded<M: Monoid>(list: &List, op: &M) -> Tup
    requires { M.takes op.now list.now.ty }
    ensures { result ≡ M.finished op.now (fold_or (M.nothing op.now) (M.lifted op.now) (M.combined op.now) list.now.items) }
{
    op.finish(folded_values(list, op), list.len())
}

#[inline(always)]
fn folded_values<M: Monoid>(list: &List, op: &M) -> M::C
    requires { M.takes op.now list.now.ty }
    ensures value { result ≡ fold_or (M.nothing op.now) (M.lifted op.now) (M.combined op.now) list.now.items }
    ensures fits { M.fits op.now result (length list.now.items) }
{
    list.admitted();
    // By this call it is known that the elements are fewer than 2^32.
    let _count = list.len();
    if is_narrow(list.ty()) {
        return folded_numbers(list.numbers_64(0), op);
    }
    folded_elements(list, op)
}

// Whether elements are one number of 64 bits each.
#[inline(always)]
fn is_narrow(ty: ElemType) -> bool
    ensures { result ≡ true → ty ≡ W64 ∷ [] }
{
    ty.len() == 1 && ty.at(0) == Width::W64
}

// The numbers' values combined in order. One column of one width is read as a slice.
#[inline(always)]
fn folded_numbers<M: Monoid>(numbers: &[i64], op: &M) -> M::C
    requires takes { M.takes op.now (W64 ∷ []) }
    requires admitted { All (Admits (W64 ∷ [])) (singles numbers.now) }
    requires few { length numbers.now ≤ MAX_ELEMENTS }
    ensures value { result ≡ fold_or (M.nothing op.now) (M.lifted op.now) (M.combined op.now) (singles numbers.now) }
    ensures fits { M.fits op.now result (length numbers.now) }
{
    let mut total = op.unit();
    for i in 0..numbers.len() as u32 {
        let number = Tup::one(i128::from(numbers[i as usize]));
        total = op.combine(total, i, op.lift(number), 1);
    }
    total
}

// The elements' values combined in order, each put together from its columns.
#[inline(always)]
fn folded_elements<M: Monoid>(list: &List, op: &M) -> M::C
    requires { M.takes op.now list.now.ty }
    ensures value { result ≡ fold_or (M.nothing op.now) (M.lifted op.now) (M.combined op.now) list.now.items }
    ensures fits { M.fits op.now result (length list.now.items) }
{
    list.admitted();
    let mut total = op.unit();
    for i in 0..list.len() {
        total = op.combine(total, i, op.lift(list.at(i)), 1);
    }
    total
}

/// What an operator with a unit makes of a whole list. It goes over the list once, and takes no
/// memory.
pub fn reduce(list: &List, name: ListOp) -> Tup
    requires typed { IsOk (typed_of name list.now.ty) }
    requires unit { IsTrue (not (is_end name)) }
    ensures { reduction_of name list.now.ty list.now.items ≡ Some result }
{
    visit_monoid(Whole { list }, name, list.ty())
}
