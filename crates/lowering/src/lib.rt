//! What lowering makes of a module that counts, as a definition, and that it runs as before.
#![tactic(auto)]

mod laws;

pub use laws::lowering_runs;
