//! The plan by which a module counts: counters outside a spanning tree of each function, and that the module counts the original.
#![tactic(auto)]

mod laws;

pub use laws::{gen_counts, unreachable_blocks_stay};
