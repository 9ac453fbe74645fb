//! Tests of the module that counts as printed text, over `gen_module`, in a crate of their own, so that its proofs are not made a second
//! time.
#![tactic(auto)]

#[cfg(test)]
mod edges;
#[cfg(test)]
mod places;
#[cfg(test)]
mod text;
