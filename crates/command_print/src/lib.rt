//! The command `print`: the canonical text of a module.
#![tactic(auto)]

mod printing;

pub use printing::Print;
