//! How often a run marks what is counted.
#![tactic(auto)]

mod laws;

pub use laws::marks_are_few;
