//! Rows of the most wanted keys, one row a site, which many threads fill at once. A place of a row
//! is claimed once and for one key, and each key that was asked for is counted in its place, or in
//! the row's dropped word where every place has another key.
//!
//! A thread steps with a seat. What it asked for is known of the seat alone, and the seats' shares
//! say when one seat knows all that was ever asked.
#![tactic(auto)]

mod close;
mod row;
mod rule;
mod seat;
mod table;
mod walk;

pub use row::Row;
pub use seat::RowSeat;
pub use table::ValueRows;

#[cfg(test)]
mod tests;
