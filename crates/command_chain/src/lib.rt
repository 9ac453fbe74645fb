//! The command `chain`: the calls of a text on a module, their outcomes, and the count of every edge.
#![tactic(auto)]

mod chain;
mod command;
mod report;

pub use command::Chain;
