//! The rules on what counts: the first that a function breaks.
#![tactic(auto)]

mod counters;
mod first;
mod intrinsics;
mod notes;
mod operands;
mod sites;
mod units;
mod walk;

pub use first::first_in_counting;

#[cfg(test)]
mod tests;
