//! The command `show`: the totals of a profile.
#![tactic(auto)]

mod showing;

pub use showing::Show;
