//! Calls run on several workers, with what they count in one profile: the results in order, the counters, and the row of
//! each site.
#![tactic(auto)]

mod counted;

pub use counted::{RunCounts, run_counted};
