//! The module that counts is read back from its own text.
#![tactic(auto)]

mod laws;
mod names;

pub use laws::gen_is_spelled;
pub use names::names_are_short;
