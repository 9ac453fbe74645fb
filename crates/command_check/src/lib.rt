//! The command `check`: whether a module is accepted, and its kind.
#![tactic(auto)]

mod checking;

pub use checking::Check;
