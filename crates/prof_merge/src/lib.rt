//! Profiles merged in parallel, and the totals of a profile.
#![tactic(auto)]

mod header;
mod inputs;
mod merging;
mod order;
mod parts;
mod reading;
mod showing;
mod totals;

pub use inputs::MergeInputs;
pub use merging::merge;
pub use order::any_inputs;
pub use reading::read_all;
pub use showing::show;

#[cfg(test)]
mod tests;
