//! The top call: a list of words, files and outputs to a status.
#![tactic(auto)]

mod built;
mod top;

pub use pgo_shell::Status;
pub use top::{no_memory, pgo, usage};

#[cfg(test)]
mod instrument_tests;
#[cfg(test)]
mod profile_tests;
#[cfg(test)]
mod tests;
