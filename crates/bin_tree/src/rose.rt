//! Rose trees, kept by columns in preorder.

ghost use Rattle.std.specs.Prelude.{◌≡◌, ℕ, ◌<◌, ◌≤◌, ◌^◌, ◌↔◌, [], ◌∷◌, length, slice_index, slice_index_or, IsTrue, IfOk, IsErrOf, MatchResult};
ghost use Rattle.op_laws.specs.Admits.{Admits};
ghost use Rattle.bin_tree.specs.Roses.{size, degree, sub_at, counts_of, values_of, Each, TypedRose, IsRoseOf, IsOnlyRoseOf};
ghost use Rattle.bin_tree.specs.Places.{IsClosedAt, IsShort, IsWhole};
ghost use Rattle.bin_tree.specs.Faults.{IsCause};

use crate::MAX_ROSE_NODES;
use crate::fault::TreeFault;
use op_laws::{List, Tup};
use std::alloc::{AllocError, Global};
use std::marker::Model;

/// A rose tree of elements of one type: each node has any number of children. Its nodes are named
/// by their places in preorder, from 0 on: a node comes before its children's subtrees, and these
/// follow one another. Beside its elements it takes four bytes a node.
#[derive(Debug)]
pub struct Rose {
    counts: Vec<u32>,
    values: List,
}

// By hand, so that where a rose tree is let go there is one call, and not one a column.
impl Drop for Rose {
    fn drop(self) {
        let Self {
            counts: _,
            values: _,
        } = self;
    }
}

impl Model for Rose {
    ghost use Rattle.bin_tree.specs.Roses.{TypedRose};
    ghost use Rattle.bin_tree.specs.Columns.{rose_from, AreRoseColumns};
    ghost use Rattle.bin_tree.specs.Codes.{rose_code};

    ghost Value = { TypedRose };

    ghost coded = { rose_code };

    ghost view = { λ r. record { ty = r.values.ty; rose = rose_from r.counts.items r.values.items } };

    ghost invariant = { λ r. AreRoseColumns (rose_from r.counts.items r.values.items) r.counts.items r.values.items };
}

impl Rose {
    /// The rose tree with these numbers of children and these values in preorder. It goes over the
    /// numbers once, and takes no memory.
    pub fn from_counts(_alloc: Global, counts: Vec<u32>, values: List) -> Result<Rose, TreeFault>
        requires same { length counts.items ≡ length values.items }
        requires few { length counts.items ≤ MAX_ROSE_NODES }
        ensures ok { IfOk result (IsRoseOf counts.items values) }
        ensures only { IfOk result (IsOnlyRoseOf counts.items values) }
        // The preorder of a rose tree is never at fault.
        ensures given { (r : TypedRose) → IsRoseOf counts.items values r → MatchResult result (λ s. s ≡ r) (λ fault. fault ≡ TreeFault.Memory) }
        ensures closed { (i : ℕ) → IsErrOf result (TreeFault.Closed i) ↔ IsClosedAt counts.items i }
        ensures short { IsErrOf result TreeFault.Short ↔ IsShort counts.items }
    {
        check_counts(&counts)?;
        Ok(Rose { counts, values })
    }

    /// How many nodes there are.
    #[inline(always)]
    pub fn len(&self) -> u32
        ensures value { result ≡ size self.now.rose }
        ensures some { 0 < result }
        ensures few { result ≤ MAX_ROSE_NODES }
        ensures counts { length (counts_of self.now.rose) ≡ result }
        ensures values { length (values_of self.now.rose) ≡ result }
    {
        self.values.len()
    }

    /// The values in preorder.
    #[inline(always)]
    pub fn values(&self) -> &List
        ensures { result.now ≡ record { ty = self.now.ty; items = values_of self.now.rose } }
    {
        &self.values
    }

    /// How many children the node at place `i` has.
    #[inline(always)]
    pub fn children(&self, i: u32) -> u32
        requires { i < size self.now.rose }
        ensures value { result ≡ degree (sub_at self.now.rose i) }
        ensures count { result ≡ slice_index (counts_of self.now.rose) i }
    {
        self.counts[i as usize]
    }

    /// The value at place `i`, put together from its columns.
    #[inline(always)]
    pub fn value(&self, i: u32) -> Tup
        requires { i < size self.now.rose }
        ensures value { result ≡ (sub_at self.now.rose i).value }
        ensures item { result ≡ slice_index_or (values_of self.now.rose) i [] }
        ensures admitted { Admits self.now.ty result }
    {
        self.values.at(i)
    }

    /// Each value is one of the rose tree's type. It does nothing: its clause is for proofs that go
    /// over all nodes.
    #[inline(always)]
    pub fn admitted(&self)
        ensures { Each (Admits self.now.ty) self.now.rose }
    {
        self.values.admitted();
    }

    /// The rose tree of this shape with these values in preorder. It copies the numbers of
    /// children, and takes the values as they are.
    pub fn reshape(&self, alloc: Global, values: List) -> Result<Rose, AllocError>
        requires { length values.items ≡ size self.now.rose }
        ensures { IfOk result (IsRoseOf (counts_of self.now.rose) values) }
    {
        let counts = Vec::from_slice(alloc, &self.counts)?;
        Ok(Rose { counts, values })
    }

    /// Whether both rose trees have the same numbers of children, so that only their values may
    /// differ. It goes over the numbers once.
    pub fn same_shape(&self, other: &Rose) -> bool
        ensures { IsTrue result ↔ (counts_of self.now.rose ≡ counts_of other.now.rose) }
    {
        self.counts.as_slice() == other.counts.as_slice()
    }
}

// Whether the numbers of children are those of one tree.
fn check_counts(counts: &[u32]) -> Result<(), TreeFault>
    requires { length counts.now < 2 ^ 31 }
    ensures { MatchResult result (λ _. IsWhole counts.now) (IsCause counts.now) }
{
    let mut places: u64 = 1;
    for (i, count) in counts.iter().enumerate() {
        if places == 0 {
            return Err(TreeFault::Closed(i as u32));
        }
        places = places - 1 + *count as u64;
    }
    if places > 0 {
        return Err(TreeFault::Short);
    }
    Ok(())
}
