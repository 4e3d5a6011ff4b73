//! The names of the operators that go up binary trees.

ghost use Rattle.std.specs.Prelude.{◌≡◌, Some, IfSome};
ghost use Rattle.tree_names.specs.Names.{tree_name, tree_named, tree_takes, tree_typed};

use op_catalog::{OpFault, Takes};
use op_laws::ElemType;

/// An operator that goes up binary trees, by its name.
#[derive(Clone, Copy, Debug, PartialEq, Eq)]
pub enum TreeName {
    /// The sum of all values.
    Sum,
    /// The least value.
    Min,
    /// The greatest value.
    Max,
    /// The greatest sum along a path from the root to a leaf.
    Heavy,
    /// The greatest sum of a whole subtree.
    BestSub,
    /// The value of an expression: a node of value 0 adds its children, and any other multiplies
    /// them.
    Expr,
}

impl TreeName {
    const ALL: [TreeName; 6] = [
        TreeName::Sum,
        TreeName::Min,
        TreeName::Max,
        TreeName::Heavy,
        TreeName::BestSub,
        TreeName::Expr,
    ];

    fn name(self) -> &'static [u8]
        ensures { result.now ≡ tree_name self }
    {
        match self {
            TreeName::Sum => b"sum",
            TreeName::Min => b"min",
            TreeName::Max => b"max",
            TreeName::Heavy => b"heavy",
            TreeName::BestSub => b"bestsub",
            TreeName::Expr => b"expr",
        }
    }

    /// The operator of this name.
    pub fn of_name(word: &[u8]) -> Option<TreeName>
        ensures value { result ≡ tree_named word.now }
        ensures named { IfSome result (λ op. tree_name op ≡ word.now) }
        ensures known { (op : _) → tree_name op ≡ word.now → result ≡ Some op }
    {
        Self::find_named(word)
    }

    fn find_named(word: &[u8]) -> Option<TreeName>
        ensures { result ≡ tree_named word.now }
    {
        TreeName::ALL.iter().copied().find(|op| word == op.name())
    }

    // The types of element that it takes.
    fn takes(self) -> Takes
        ensures { result ≡ tree_takes self }
    {
        match self {
            TreeName::Sum | TreeName::Heavy | TreeName::BestSub => Takes::Sums,
            TreeName::Min | TreeName::Max => Takes::Numbers,
            TreeName::Expr => Takes::Words,
        }
    }

    /// The type of its results for elements of this type.
    pub fn typed(self, ty: ElemType) -> Result<ElemType, OpFault>
        ensures { result ≡ tree_typed self ty }
    {
        self.takes().typed(ty)
    }
}
