//! A plain module stays accepted when an edge of a function is split, and when blocks stand in another order.
#![tactic(auto)]

mod laws;

pub use laws::{reordered_is_accepted, split_is_accepted};
