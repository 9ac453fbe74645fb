//! The module that counts an accepted plain module is accepted.
#![tactic(auto)]

mod few;
mod laws;

pub use few::counters_fit;
pub use laws::{counted_is_formed, counters_are_few, gen_is_accepted, gen_plans_fit};
