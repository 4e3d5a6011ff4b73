//! The law of chains, over the definitions.
ghost use Rattle.fuse_rewrite.specs.Chains.{EachStepIsLinked, EachChainRunsFromHead, StepsAreInOrder, EachPrintIsKept};

/// The steps of every typed script can be run in their order: each takes, through its chain, inputs
/// and what earlier steps make. It does nothing: its clauses are for proofs that run a plan.
#[inline(always)]
pub fn each_step_is_linked()
    ensures linked { EachStepIsLinked }
    ensures from_head { EachChainRunsFromHead }
    ensures in_order { StepsAreInOrder }
    ensures printed { EachPrintIsKept }
{}
