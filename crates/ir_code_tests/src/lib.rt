//! Tests of `ir_code` in a crate of their own, so that its proofs are not made a second time.
#![tactic(auto)]

#[cfg(test)]
mod tests;
