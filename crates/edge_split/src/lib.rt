//! One new block on one edge of a function.
#![tactic(auto)]

mod laws;

pub use laws::split_behaves;
