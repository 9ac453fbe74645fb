//! The rules on the ways between blocks: the first that a function breaks.
#![tactic(auto)]

mod arrivals;
mod cases;
mod entries;
mod first;
mod heads;
mod names;
mod place;
mod rising;
mod targets;

pub use first::first_in_flow;

#[cfg(test)]
mod tests;
