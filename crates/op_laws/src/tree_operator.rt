//! Lawful operators on trees: how values go up, and how they come down.

ghost use Rattle.std.specs.Prelude.{◌≡◌, ℕ, ◌+◌, ◌≤◌, ◌↔◌, ℤ, IsTrue};
ghost use Rattle.std.specs.Prelude.{List as Seq};
ghost use Rattle.op_laws.specs.declared.width.Width.{Width as Kind};
ghost use Rattle.op_laws.specs.Laws.{IsElementOf};
ghost use Rattle.op_laws.specs.TreeFolds.{Upward, Downward};
ghost use Rattle.op_laws.specs.TreeLaws.{UpwardLaws, NothingLaws, DownwardLaws, AcrossLaws};

use crate::MAX_ELEMENTS;
use crate::elem_type::ElemType;
use crate::tup::Tup;

/// How a tree becomes a value, from its leaves up. No method takes memory or refuses.
///
/// Values and nodes have weights, as the values of a `Lifted` have. By the two contraction laws a
/// part of a tree may be contracted while the value of one subtree below it isn't known: what
/// stands above that hole then stands for one node.
pub trait TreeOp {
    /// The value of a subtree.
    type V: Copy;

    /// A node whose children's values aren't known yet.
    type G: Copy;

    // The types of element that it takes.
    ghost takes: { Self → Seq Kind → Type 0 };

    // The type of its results.
    ghost gives: { Self → Seq Kind → Seq Kind };

    // How values go up.
    ghost upward: { Self → Upward (Seq ℤ) Self.V Self.G };

    // The result that a value stands for.
    ghost finished: { Self → Self.V → Seq ℤ };

    // The value may stand for so many elements.
    ghost fits: { Self → Self.V → ℕ → Type 0 };

    // The node may stand for so many elements.
    ghost fits_hole: { Self → Self.G → ℕ → Type 0 };

    /// Whether it takes trees of this type of element.
    fn accepts(&self, ty: ElemType) -> bool
        ensures { IsTrue result ↔ takes self.now ty };

    /// The type of its results.
    fn result(&self, ty: ElemType) -> ElemType
        requires { takes self.now ty }
        ensures { result ≡ gives self.now ty };

    /// The value of a leaf. Its weight is 1.
    fn leaf(&self, e: Tup) -> Self::V
        requires { IsElementOf (takes self.now) e }
        ensures { result ≡ (upward self.now).leaf e };

    /// What an inner node is to the values of its children. Its weight is 1.
    fn phi(&self, b: Tup) -> Self::G
        requires { IsElementOf (takes self.now) b }
        ensures { result ≡ (upward self.now).phi b };

    /// The value of a node, from those of its children. Its weight is the sum of the three.
    fn psi_n(&self, l: Self::V, nl: u32, g: Self::G, ng: u32, r: Self::V, nr: u32) -> Self::V
        requires few { nl + ng + nr ≤ MAX_ELEMENTS }
        requires left { fits self.now l nl }
        requires middle { fits_hole self.now g ng }
        requires right { fits self.now r nr }
        ensures { result ≡ (upward self.now).node l g r };

    /// One node for two: `l` is the left child of `g`, whose right child has the value `r`. The
    /// children of `l` become those of the new node. Its weight is the sum of the three.
    fn psi_l(&self, l: Self::G, nl: u32, g: Self::G, ng: u32, r: Self::V, nr: u32) -> Self::G
        requires few { nl + ng + nr ≤ MAX_ELEMENTS }
        requires left { fits_hole self.now l nl }
        requires middle { fits_hole self.now g ng }
        requires right { fits self.now r nr }
        ensures { result ≡ (upward self.now).hole_left l g r };

    /// One node for two: `r` is the right child of `g`, whose left child has the value `l`. The
    /// children of `r` become those of the new node. Its weight is the sum of the three.
    fn psi_r(&self, l: Self::V, nl: u32, g: Self::G, ng: u32, r: Self::G, nr: u32) -> Self::G
        requires few { nl + ng + nr ≤ MAX_ELEMENTS }
        requires left { fits self.now l nl }
        requires middle { fits_hole self.now g ng }
        requires right { fits_hole self.now r nr }
        ensures { result ≡ (upward self.now).hole_right l g r };

    /// The result that a value of weight `n` stands for: an element of the result's type.
    fn finish(&self, v: Self::V, n: u32) -> Tup
        requires { fits self.now v n }
        ensures { result ≡ finished self.now v };

    ghost upward_laws: { (op : Self) → UpwardLaws (takes op) (gives op) (upward op) (finished op) (fits op) (fits_hole op) };
}

/// An operator that has a value for no tree, so that it folds forests of rose trees: a node's left
/// child is then the forest of its children, and its right child that of its later siblings.
pub trait RoseOp: TreeOp {
    // The value of no tree.
    ghost nothing: { Self → Self.V };

    /// The value of no tree, which each leaf has too. Its weight is 1.
    fn none(&self) -> Self::V
        ensures { result ≡ nothing self.now };

    ghost nothing_laws: { (op : Self) → NothingLaws (nothing op) (Self.upward op) (Self.fits op) };
}

/// How values come down a tree from its root. No method takes memory or refuses.
///
/// By the contraction law the steps on the way to a node may be made one before the value at its
/// start is known.
pub trait DownOp {
    /// The value at a node.
    type V: Copy;

    /// The way from a node to one below it.
    type D: Copy;

    // The types of element that it takes.
    ghost takes: { Self → Seq Kind → Type 0 };

    // The type of its results.
    ghost gives: { Self → Seq Kind → Seq Kind };

    // How values come down.
    ghost downward: { Self → Downward (Seq ℤ) Self.V Self.D };

    // The result that a value stands for.
    ghost finished: { Self → Self.V → Seq ℤ };

    // The value may stand for so many elements.
    ghost fits: { Self → Self.V → ℕ → Type 0 };

    // The way may stand for so many elements.
    ghost fits_way: { Self → Self.D → ℕ → Type 0 };

    /// Whether it takes trees of this type of element.
    fn accepts(&self, ty: ElemType) -> bool
        ensures { IsTrue result ↔ takes self.now ty };

    /// The type of its results.
    fn result(&self, ty: ElemType) -> ElemType
        requires { takes self.now ty }
        ensures { result ≡ gives self.now ty };

    /// The value at a root. Its weight is 1.
    fn start(&self, c: i64) -> Self::V
        ensures { result ≡ (downward self.now).start c };

    /// The way from a node to its left child. Its weight is 2.
    fn phi_l(&self, b: Tup) -> Self::D
        requires { IsElementOf (takes self.now) b }
        ensures { result ≡ (downward self.now).left b };

    /// The way from a node to its right child. Its weight is 2.
    fn phi_r(&self, b: Tup) -> Self::D
        requires { IsElementOf (takes self.now) b }
        ensures { result ≡ (downward self.now).right b };

    /// The way `a` and then the way `b`. Its weight is the sum of the two.
    fn psi_u(&self, a: Self::D, na: u32, b: Self::D, nb: u32) -> Self::D
        requires few { na + nb ≤ MAX_ELEMENTS }
        requires first { fits_way self.now a na }
        requires second { fits_way self.now b nb }
        ensures { result ≡ (downward self.now).then a b };

    /// What `c` becomes on the way `d`. Its weight is the sum of the two.
    fn psi_d(&self, c: Self::V, nc: u32, d: Self::D, nd: u32) -> Self::V
        requires few { nc + nd ≤ MAX_ELEMENTS }
        requires value { fits self.now c nc }
        requires way { fits_way self.now d nd }
        ensures { result ≡ (downward self.now).down c d };

    /// The result that a value of weight `n` stands for: an element of the result's type.
    fn finish(&self, c: Self::V, n: u32) -> Tup
        requires { fits self.now c n }
        ensures { result ≡ finished self.now c };

    ghost downward_laws: { (op : Self) → DownwardLaws (takes op) (gives op) (downward op) (finished op) (fits op) (fits_way op) };
}

/// An operator whose step to the right changes nothing, so that it goes down rose trees: a step to
/// the left leads to the children, and one to the right to the later siblings.
pub trait RoseDown: DownOp {
    ghost across_laws: { (op : Self) → AcrossLaws (Self.downward op) };
}
