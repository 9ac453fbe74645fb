//! The runs of a module as flows on the edge graphs of its functions.
#![tactic(auto)]

mod laws;

pub use laws::traversals_are_a_flow;
