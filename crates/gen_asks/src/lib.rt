//! What the calls of a module that counts ask for.
#![tactic(auto)]

mod laws;

pub use laws::{calls_ask_of_units, counters_rise};
