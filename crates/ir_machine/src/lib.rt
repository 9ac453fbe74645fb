//! The evaluator: the run of a call on the code of a module.
#![tactic(auto)]

mod answers;
mod calls;
mod deeds;
mod exits;
mod laws;
mod memories;
mod program;
mod registers;
mod run;
mod slots;
mod state;
mod step;
mod trace;
mod turns;
mod walks;

pub use laws::edges_are_counted;
pub use program::{Code, ResolveError, resolve};
pub use run::run_call;
pub use trace::trace_call;
