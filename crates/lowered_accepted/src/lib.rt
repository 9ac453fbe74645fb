//! The lowered module is accepted.
#![tactic(auto)]

mod laws;

pub use laws::{lowered_is_accepted, lowered_is_formed};
