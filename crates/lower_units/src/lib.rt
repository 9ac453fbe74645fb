//! What the calls of LLVM's instrumentation intrinsics tell of the units of a module that counts.
#![tactic(auto)]

mod asked;
mod faults;
mod globals;
mod held;
mod names;
mod refusal;
mod table;
mod told;
mod units;

pub use asked::{Asked, asked_of};
pub use names::{counters_symbol, data_symbol};
pub use refusal::Refusal;
pub use units::Units;
