//! Tests of the program over files in memory, in a crate of their own, so that the proofs of the commands are not made a second time.
#![tactic(auto)]

#[cfg(test)]
mod chains;
#[cfg(test)]
mod clang_text;
#[cfg(test)]
mod limits;
#[cfg(test)]
mod profiles;
#[cfg(test)]
mod program;
#[cfg(test)]
mod refusals;
#[cfg(test)]
mod run_profiles;
#[cfg(test)]
mod runs;
#[cfg(test)]
mod texts;
#[cfg(test)]
mod values;
