//! The rules and limits of a module, as definitions, and what they come to together.
#![tactic(auto)]

mod laws;
mod place;

pub use laws::{
    accepted_are_small, edges_have_entries, functions_have_graphs, functions_have_numbers,
    kept_are_resolved, look_ups_tell, well_formed_breaks_none,
};
pub use place::{Kind, LimitKind, Place};
