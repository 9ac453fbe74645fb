//! Tests of calls over several workers that meet at a gate, over `run_profile`, in a crate of their own.
#![tactic(auto)]

#[cfg(test)]
mod meeting;
