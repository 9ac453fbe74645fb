//! Tests of lowered modules as printed text and of each refusal, over `instr_lower`, in a crate of their own, so that its proofs are not
//! made a second time.
#![tactic(auto)]

#[cfg(test)]
mod forms;
#[cfg(test)]
mod refusals;
#[cfg(test)]
mod text;
