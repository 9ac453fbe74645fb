//! What it means to run a module: abstract machines, the state and the step of a module, the run of
//! a call with its result, and the types in which an evaluator speaks of them.
#![tactic(auto)]

mod laws;
mod probe;
mod result;

pub use laws::{more_steps_go_on, output_is_bounded, selects_are_seen, walks_are_a_flow};
pub use probe::{Event, Probe, QuietProbe, Tally};
pub use result::{Call, CallResult, End, TrapKind};
