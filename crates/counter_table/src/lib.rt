//! Counters that many threads add to at once, each by one atomic addition, so that no addition is
//! lost and none is invented.
//!
//! A thread steps with a seat. What it added is known of the seat alone, and the seats' shares say
//! when one seat knows all that was ever added.
#![tactic(auto)]

mod rule;
mod seat;
mod table;

pub use seat::CountSeat;
pub use table::CounterTable;

#[cfg(test)]
mod tests;
