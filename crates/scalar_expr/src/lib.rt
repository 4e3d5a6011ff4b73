//! Functions on elements: the type that a function gives, and its values on one element and on
//! columns of elements.
#![tactic(auto)]

mod batch;
mod checking;
mod column;
mod compile;
mod deep;
mod depth;
mod emit;
mod fault;
mod func;
mod function;
mod narrow;
mod narrow_words;
mod pair;
mod room;
mod scalar;
mod single;
mod step;
mod typing;
mod wide;
mod wide_words;
mod widths;

pub use checking::type_of;
pub use column::Column;
pub use fault::TypeFault;
pub use func::Func;
pub use function::Typed;
pub use pair::Pair;
pub use scalar::Scalar;
pub use typing::typed;

/// How deep a scalar may be. A literal and a component have depth 1.
pub const MAX_DEPTH: u32 = 30;
