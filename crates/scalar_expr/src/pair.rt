//! Operators on two parts.

/// An operator on two parts.
#[derive(Clone, Copy, Debug, PartialEq, Eq)]
pub enum Pair {
    /// The sum.
    Add,
    /// The difference.
    Sub,
    /// The product modulo 2^64.
    Mul,
    /// The lesser number.
    Min,
    /// The greater number.
    Max,
    /// 1 where the first number is less, else 0.
    Less,
    /// 1 where the numbers are equal, else 0.
    Same,
    /// The bits that are set in both.
    And,
    /// The bits that are set in one or both.
    Or,
    /// The bits that are set in one alone.
    Xor,
}
