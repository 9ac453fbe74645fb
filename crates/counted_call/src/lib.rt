//! One call of a module's code, with its marks told to shared counters and rows: a counter that
//! rises is one atomic addition, and a call target is noted in the row of its site.
#![tactic(auto)]

mod call;
mod probe;

pub use call::counted_call;
