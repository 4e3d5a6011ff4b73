//! Blocks that follow one another.

ghost use Rattle.list_fusion.specs.Cuts.{EachCutFollows};

/// For every pipe, blocks that follow one another give parts of its list that follow one another.
/// It does nothing: its clause is for proofs that put blocks together.
#[inline(always)]
pub fn blocks_follow()
    ensures { EachCutFollows }
{}
