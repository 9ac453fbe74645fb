//! The order of the blocks behind the first one does not matter to a run.
#![tactic(auto)]

mod laws;

pub use laws::order_is_free;
