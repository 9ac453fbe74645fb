//! What a command makes that writes one module to its file, and prints nothing.
#![tactic(auto)]

mod writing;

pub use writing::written;
