//! What all commands need: the texts of their files by their places, and the lines of their refusals.
#![tactic(auto)]

mod refusing;

pub use refusing::{name_with, name_with_number, refused, refused_at};
