//! The command `run`: the calls of a text on a module, the text of their outcomes, and the profile of the run.
#![tactic(auto)]

mod outcomes;
mod run;
mod running;

pub use outcomes::first_unreturned;
pub use run::Run;
