//! The module that counts an accepted plain module is lowered.
#![tactic(auto)]

mod laws;

pub use laws::gen_is_lowered;
