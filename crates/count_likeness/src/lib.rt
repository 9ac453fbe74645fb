//! A module that counts behaves as the one that it was made from, and its marks are the log of that one.
#![tactic(auto)]

mod laws;

pub use laws::{counting_behaves, made_labels_are_distinct};
