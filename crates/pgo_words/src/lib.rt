//! The words of the command line: the plan that they give, or that they give none.
#![tactic(auto)]

mod command;
mod commands;
mod error;
mod files;
mod given;
mod numbers;
mod parting;
mod plan;
mod settings;
mod table;

pub use error::WordsError;
pub use plan::{Plan, StreamPlan};
pub use table::{plan_of, stream_plan_of};

#[cfg(test)]
mod tests;
