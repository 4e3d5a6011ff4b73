//! Which elements operators take.

ghost use Rattle.std.specs.Prelude.{◌≡◌};
ghost use Rattle.op_catalog.specs.Catalog.{typed_by};

use op_laws::{ElemType, Width};
use thiserror::Error;

/// Why an operator doesn't take elements of a type. The number of components comes first.
#[derive(Clone, Copy, Debug, PartialEq, Eq, Error)]
pub enum OpFault {
    #[error("the number of components isn't the operator's")]
    WrongArity,
    #[error("a component is too wide for the operator")]
    TooWide,
}

/// The types of element that an operator takes, and what its results are.
#[derive(Clone, Copy, Debug, PartialEq, Eq)]
pub enum Takes {
    /// One number of w64 or w96. The result has one of the next width.
    Sums,
    /// One number of any width. So is the result, and in each row below.
    Numbers,
    /// One number of w64.
    Words,
    /// Two numbers of w64.
    Pairs,
    /// Any element.
    All,
}

impl Takes {
    /// The result's type at an element's type.
    pub fn typed(self, ty: ElemType) -> Result<ElemType, OpFault>
        ensures { result ≡ typed_by self ty }
    {
        match self {
            Takes::Sums => sum_type(ty),
            Takes::Numbers => number_type(ty),
            Takes::Words => word_type(ty),
            Takes::Pairs => pair_type(ty),
            Takes::All => Ok(ty),
        }
    }
}

// The type after that of one number of w64 or w96.
fn sum_type(ty: ElemType) -> Result<ElemType, OpFault>
    ensures { result ≡ typed_by Takes.Sums ty }
{
    if ty.len() != 1 {
        return Err(OpFault::WrongArity);
    }
    match ty.at(0) {
        Width::W64 => Ok(ElemType::one(Width::W96)),
        Width::W96 => Ok(ElemType::one(Width::W128)),
        Width::W128 => Err(OpFault::TooWide),
    }
}

// The type itself, if it has one number.
fn number_type(ty: ElemType) -> Result<ElemType, OpFault>
    ensures { result ≡ typed_by Takes.Numbers ty }
{
    if ty.len() == 1 {
        Ok(ty)
    } else {
        Err(OpFault::WrongArity)
    }
}

// The type itself, if it has one number of w64.
fn word_type(ty: ElemType) -> Result<ElemType, OpFault>
    ensures { result ≡ typed_by Takes.Words ty }
{
    if ty.len() != 1 {
        return Err(OpFault::WrongArity);
    }
    match ty.at(0) {
        Width::W64 => Ok(ty),
        Width::W96 | Width::W128 => Err(OpFault::TooWide),
    }
}

// The type itself, if it has two numbers of w64.
fn pair_type(ty: ElemType) -> Result<ElemType, OpFault>
    ensures { result ≡ typed_by Takes.Pairs ty }
{
    if ty.len() != 2 {
        return Err(OpFault::WrongArity);
    }
    match (ty.at(0), ty.at(1)) {
        (Width::W64, Width::W64) => Ok(ty),
        _ => Err(OpFault::TooWide),
    }
}
