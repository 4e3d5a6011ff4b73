//! The names of the operators that go up rose trees.

ghost use Rattle.std.specs.Prelude.{◌≡◌, Some, IfSome};
ghost use Rattle.tree_names.specs.Names.{rose_name, rose_named, rose_takes, rose_typed};

use op_catalog::{OpFault, Takes};
use op_laws::ElemType;

/// An operator that goes up rose trees, by its name.
#[derive(Clone, Copy, Debug, PartialEq, Eq)]
pub enum RoseName {
    /// The sum of all values.
    Sum,
    /// The greatest value.
    Max,
    /// The least value.
    Min,
    /// The greatest sum along a path from the root down to some node.
    Heavy,
    /// The sum over all nodes of the product of the values from the root to it.
    Ring,
}

impl RoseName {
    const ALL: [RoseName; 5] = [
        RoseName::Sum,
        RoseName::Max,
        RoseName::Min,
        RoseName::Heavy,
        RoseName::Ring,
    ];

    fn name(self) -> &'static [u8]
        ensures { result.now ≡ rose_name self }
    {
        match self {
            RoseName::Sum => b"sum",
            RoseName::Max => b"max",
            RoseName::Min => b"min",
            RoseName::Heavy => b"heavy",
            RoseName::Ring => b"ring",
        }
    }

    /// The operator of this name.
    pub fn of_name(word: &[u8]) -> Option<RoseName>
        ensures value { result ≡ rose_named word.now }
        ensures named { IfSome result (λ op. rose_name op ≡ word.now) }
        ensures known { (op : _) → rose_name op ≡ word.now → result ≡ Some op }
    {
        Self::find_named(word)
    }

    fn find_named(word: &[u8]) -> Option<RoseName>
        ensures { result ≡ rose_named word.now }
    {
        RoseName::ALL.iter().copied().find(|op| word == op.name())
    }

    // The types of element that it takes.
    fn takes(self) -> Takes
        ensures { result ≡ rose_takes self }
    {
        match self {
            RoseName::Sum | RoseName::Heavy => Takes::Sums,
            RoseName::Max | RoseName::Min => Takes::Numbers,
            RoseName::Ring => Takes::Words,
        }
    }

    /// The type of its results for elements of this type.
    pub fn typed(self, ty: ElemType) -> Result<ElemType, OpFault>
        ensures { result ≡ rose_typed self ty }
    {
        self.takes().typed(ty)
    }
}
