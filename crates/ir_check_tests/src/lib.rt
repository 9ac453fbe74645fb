//! Tests of `ir_check` in a crate of their own, so that its proofs are not made a second time.
#![tactic(auto)]

#[cfg(test)]
mod limits;
#[cfg(test)]
mod phis;
#[cfg(test)]
mod profiles;
#[cfg(test)]
mod rules;
#[cfg(test)]
mod tests;
#[cfg(test)]
mod texts;
