//! The names of the operators that come down rose trees.

ghost use Rattle.std.specs.Prelude.{◌≡◌, Some, IfSome};
ghost use Rattle.tree_names.specs.Names.{rose_down_name, rose_down_named, rose_down_takes, rose_down_typed};

use op_catalog::{OpFault, Takes};
use op_laws::ElemType;

/// An operator that comes down rose trees, by its name.
#[derive(Clone, Copy, Debug, PartialEq, Eq)]
pub enum RoseDownName {
    /// The sum of the values above.
    PathSum,
}

impl RoseDownName {
    const ALL: [RoseDownName; 1] = [RoseDownName::PathSum];

    fn name(self) -> &'static [u8]
        ensures { result.now ≡ rose_down_name self }
    {
        match self {
            RoseDownName::PathSum => b"pathsum",
        }
    }

    /// The operator of this name.
    pub fn of_name(word: &[u8]) -> Option<RoseDownName>
        ensures value { result ≡ rose_down_named word.now }
        ensures named { IfSome result (λ op. rose_down_name op ≡ word.now) }
        ensures known { (op : _) → rose_down_name op ≡ word.now → result ≡ Some op }
    {
        Self::find_named(word)
    }

    fn find_named(word: &[u8]) -> Option<RoseDownName>
        ensures { result ≡ rose_down_named word.now }
    {
        RoseDownName::ALL
            .iter()
            .copied()
            .find(|op| word == op.name())
    }

    // The types of element that it takes.
    fn takes(self) -> Takes
        ensures { result ≡ rose_down_takes self }
    {
        match self {
            RoseDownName::PathSum => Takes::Sums,
        }
    }

    /// The type of its results for elements of this type.
    pub fn typed(self, ty: ElemType) -> Result<ElemType, OpFault>
        ensures { result ≡ rose_down_typed self ty }
    {
        self.takes().typed(ty)
    }
}
