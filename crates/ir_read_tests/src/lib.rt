//! Tests of `ir_read` on whole texts, in a crate of their own, so that its proofs are not made a second time.
#![tactic(auto)]

#[cfg(test)]
mod broken;
#[cfg(test)]
mod small;
#[cfg(test)]
mod text;
#[cfg(test)]
mod whole;
