//! The tallies of an accepted module have different names: a law, of which no code is left.
#![tactic(auto)]

mod laws;

pub use laws::tallies_have_names;
