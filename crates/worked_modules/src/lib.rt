//! Worked modules: what the definition of a run gives for them, proved by computing. No code.
#![tactic(auto)]
