//! Every edge's count from those of the counted edges, and branch weights from counts.
#![tactic(auto)]

mod answer;
mod branch_weights;
mod counters;
mod ends;
mod laws;
mod nets;
mod solved_counts;
mod solver;
mod values;

pub use answer::SolveError;
pub use branch_weights::weights;
pub use laws::counters_have_one_flow;
pub use solved_counts::SolvedCounts;
pub use solver::solve;

#[cfg(test)]
mod tests;
