//! What was printed is read as it was.
#![tactic(auto)]

mod laws;

pub use laws::printed_is_read;
