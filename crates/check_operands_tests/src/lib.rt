//! Tests of `check_operands` in a crate of their own, so that its proofs are not made a second time.
#![tactic(auto)]

#[cfg(test)]
mod alone;
#[cfg(test)]
mod tests;
