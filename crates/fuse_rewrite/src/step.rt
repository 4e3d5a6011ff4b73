//! Steps of a plan.
ghost use Rattle.std.specs.Prelude.{◌≡◌};

use std::marker::Model;

/// A let line that is kept, and the fused let lines between it and the head, nearest to the head
/// first. Lines are named by their numbers in the script.
#[derive(Drop)]
pub struct Step {
    line: u32,
    chain: Vec<u32>,
}

impl Model for Step {
    ghost use Rattle.fuse_rewrite.specs.Steps.{Kept};

    ghost Value = { Kept };

    ghost view = { λ s. record { line = s.line; chain = s.chain.items } };
}

impl Step {
    pub(crate) fn new(line: u32, chain: Vec<u32>) -> Step
        ensures line { result.line ≡ line }
        ensures chain { result.chain ≡ chain.items }
    {
        Step { line, chain }
    }

    pub fn line(&self) -> u32
        ensures { result ≡ self.now.line }
    {
        self.line
    }

    pub fn chain(&self) -> &[u32]
        ensures { result.now ≡ self.now.chain }
    {
        &self.chain
    }
}
