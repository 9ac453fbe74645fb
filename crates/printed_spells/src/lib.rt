//! The canonical text of a module spells the module, wherever some text does.
#![tactic(auto)]

mod laws;

pub use laws::{
    canonical_spells, names_are_read, printed_once, printed_spells, spelled_is_spellable,
};
