//! The counts of every edge come back from the counters of the counted edges.
#![tactic(auto)]

mod laws;

pub use laws::traversals_are_solved_back;
