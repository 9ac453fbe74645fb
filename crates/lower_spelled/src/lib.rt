//! The lowered form of a module is read back from its own text.
#![tactic(auto)]

mod laws;

pub use laws::lower_is_spelled;
