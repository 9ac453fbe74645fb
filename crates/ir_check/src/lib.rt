//! The limits and rules that a module meets before anything runs or changes it.
#![tactic(auto)]

mod accept;
mod checked;
mod errors;
mod faults;

pub use accept::check;
pub use checked::Checked;
pub use errors::{CheckError, Refused};
pub use ir_rules::{
    Kind, LimitKind, Place, accepted_are_small, edges_have_entries, functions_have_graphs,
    functions_have_numbers,
};
