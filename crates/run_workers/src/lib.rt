//! The calls of a list over several workers that share counters and rows: the results are those of
//! one call after the other, and nothing that is counted is lost, however the workers run.
#![tactic(auto)]

mod drive;
mod place;
mod run;
mod work;

pub use run::run_calls;
