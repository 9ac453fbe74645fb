// The answers of the solver.

use thiserror::Error;

/// Why counters give no counts. `Inconsistent` names the least edge whose value in the flow is no
/// count, being below 0 or above 2^64 - 1, with that value. `EntryDiffers` has the counter of the
/// entry edge, which is not that edge's value in the flow.
#[derive(Clone, Copy, Debug, PartialEq, Eq, Drop, Error)]
pub enum SolveError {
    #[error("edge {edge} would have the count {value}")]
    Inconsistent { edge: u32, value: i128 },
    #[error("the counter {counter} of the entry differs from its count")]
    EntryDiffers { counter: u64 },
}
