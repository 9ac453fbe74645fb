//! Integers of a width: the operators, comparisons and conversions of LLVM's integer types, on `u64`.
#![tactic(auto)]

mod convert;
mod divide;
mod operators;
mod shift;
mod words;

pub use convert::{convert_signed, extend, truncate};
pub use operators::{DivTrap, ValueOp, ValuePred, binary, compare};

#[cfg(test)]
mod tests;
