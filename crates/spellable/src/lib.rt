//! Which modules some text spells, as a condition on each part by itself, and that the canonical text of a part spells it.
#![tactic(auto)]

mod laws;

pub use laws::{lines_are_spelled, parts_are_spelled, spelled_lines, spelled_parts};
