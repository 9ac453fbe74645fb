//! The command `merge`: profiles merged into one.
#![tactic(auto)]

mod merging;

pub use merging::Merge;
