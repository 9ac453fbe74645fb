//! The command `gen`: a plain module made one that counts.
#![tactic(auto)]

mod generating;
mod laws;

pub use generating::Gen;
pub use laws::plain_modules_are_made;
