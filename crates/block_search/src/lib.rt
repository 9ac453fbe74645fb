//! The blocks of a graph that its entry leads to.
#![tactic(auto)]

mod rows;
mod search;

pub use rows::Rows;
pub use search::{reachable, reached_are_marks};

#[cfg(test)]
mod tests;
