//! Functions on elements.

use crate::scalar::Scalar;

/// A function on elements: one scalar for each component of what it gives.
#[derive(Debug)]
pub enum Func {
    /// One component.
    One(Scalar),
    /// Two components.
    Two(Scalar, Scalar),
    /// Three components.
    Three(Scalar, Scalar, Scalar),
    /// Four components.
    Four(Scalar, Scalar, Scalar, Scalar),
}

// By hand, so that where a function is let go there is one call, and not a case for each form.
impl Drop for Func {
    fn drop(self) {
        match self {
            Func::One(_) => (),
            Func::Two(_, _) => (),
            Func::Three(_, _, _) => (),
            Func::Four(_, _, _, _) => (),
        }
    }
}
