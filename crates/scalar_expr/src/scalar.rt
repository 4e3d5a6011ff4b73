//! Scalars.

/// A number made of an element's components. Numbers are whole numbers without bound; bits are
/// those of two's complement of 64 bits.
#[derive(Debug)]
pub enum Scalar {
    /// This number.
    Lit(i64),
    /// The component of this place, from 0 on.
    Part(u32),
    /// The sum.
    Add(Box<Scalar>, Box<Scalar>),
    /// The difference.
    Sub(Box<Scalar>, Box<Scalar>),
    /// The product modulo 2^64: the one number of w64 that differs from it by a multiple of 2^64.
    Mul(Box<Scalar>, Box<Scalar>),
    /// The lesser number.
    Min(Box<Scalar>, Box<Scalar>),
    /// The greater number.
    Max(Box<Scalar>, Box<Scalar>),
    /// 1 where the first number is less, else 0.
    Less(Box<Scalar>, Box<Scalar>),
    /// 1 where the numbers are equal, else 0.
    Same(Box<Scalar>, Box<Scalar>),
    /// The bits that are set in both.
    And(Box<Scalar>, Box<Scalar>),
    /// The bits that are set in one or both.
    Or(Box<Scalar>, Box<Scalar>),
    /// The bits that are set in one alone.
    Xor(Box<Scalar>, Box<Scalar>),
    /// The second number where the first isn't 0, else the third.
    Cond(Box<Scalar>, Box<Scalar>, Box<Scalar>),
    /// The number modulo 2^64.
    Wrap(Box<Scalar>),
}

// By hand, so that where a scalar is let go there is one call, and not a case for each form.
impl Drop for Scalar {
    fn drop(self) {
        match self {
            Scalar::Lit(_) => (),
            Scalar::Part(_) => (),
            Scalar::Add(_, _) => (),
            Scalar::Sub(_, _) => (),
            Scalar::Mul(_, _) => (),
            Scalar::Min(_, _) => (),
            Scalar::Max(_, _) => (),
            Scalar::Less(_, _) => (),
            Scalar::Same(_, _) => (),
            Scalar::And(_, _) => (),
            Scalar::Or(_, _) => (),
            Scalar::Xor(_, _) => (),
            Scalar::Cond(_, _, _) => (),
            Scalar::Wrap(_) => (),
        }
    }
}
