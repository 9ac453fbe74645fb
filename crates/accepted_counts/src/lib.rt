//! The module that counts an accepted plain module behaves as that one: what counting stands on follows from the rules.
#![tactic(auto)]

mod laws;

pub use laws::{plain_can_be_counted, plain_modules_count};
