//! The command `lower`: a module that counts by intrinsics made one that counts in counters of its own.
#![tactic(auto)]

mod laws;
mod reasons;
mod writing;

pub use laws::modules_are_lowered;
pub use writing::Lower;
