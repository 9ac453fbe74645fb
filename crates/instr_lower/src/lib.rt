//! A module that counts by intrinsics made one that counts in counters of its own.
#![tactic(auto)]

mod error;
mod functions;
mod instrs;
mod whole;

pub use error::LowerError;
pub use whole::lower;
