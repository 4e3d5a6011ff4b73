//! The names of the operators that come down binary trees.

ghost use Rattle.std.specs.Prelude.{◌≡◌, Some, IfSome};
ghost use Rattle.tree_names.specs.Names.{down_name, down_named, down_typed};

use op_catalog::{OpFault, Takes};
use op_laws::{ElemType, Width};

/// An operator that comes down binary trees, by its name.
#[derive(Clone, Copy, Debug, PartialEq, Eq)]
pub enum DownName {
    /// The sum of the values above.
    PathSum,
    /// The greatest of the values above.
    PathMax,
    /// How often the way goes to the left.
    Turns,
    /// The places of a heap: 2c and 2c + 1 below c.
    HeapIndex,
    /// Preorder numbers, where the values are the sizes of the left subtrees.
    Pre,
}

impl DownName {
    const ALL: [DownName; 5] = [
        DownName::PathSum,
        DownName::PathMax,
        DownName::Turns,
        DownName::HeapIndex,
        DownName::Pre,
    ];

    fn name(self) -> &'static [u8]
        ensures { result.now ≡ down_name self }
    {
        match self {
            DownName::PathSum => b"pathsum",
            DownName::PathMax => b"pathmax",
            DownName::Turns => b"turns",
            DownName::HeapIndex => b"heapindex",
            DownName::Pre => b"pre",
        }
    }

    /// The operator of this name.
    pub fn of_name(word: &[u8]) -> Option<DownName>
        ensures value { result ≡ down_named word.now }
        ensures named { IfSome result (λ op. down_name op ≡ word.now) }
        ensures known { (op : _) → down_name op ≡ word.now → result ≡ Some op }
    {
        Self::find_named(word)
    }

    fn find_named(word: &[u8]) -> Option<DownName>
        ensures { result ≡ down_named word.now }
    {
        DownName::ALL.iter().copied().find(|op| word == op.name())
    }

    /// The type of its results for elements of this type.
    pub fn typed(self, ty: ElemType) -> Result<ElemType, OpFault>
        ensures { result ≡ down_typed self ty }
    {
        match self {
            DownName::PathSum | DownName::Pre => Takes::Sums.typed(ty),
            DownName::PathMax => Takes::Numbers.typed(ty),
            DownName::Turns => Ok(ElemType::one(Width::W96)),
            DownName::HeapIndex => Ok(ElemType::one(Width::W64)),
        }
    }
}
