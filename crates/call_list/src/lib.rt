//! The text of the calls that a run makes, and the text of their outcomes.
#![tactic(auto)]

mod calls;
mod error;
mod line;
mod lines;
mod outcomes;
mod reading;
mod values;

pub use error::CallsError;
pub use outcomes::{outcome, trap_text};
pub use reading::read_calls;

#[cfg(test)]
mod tests;
