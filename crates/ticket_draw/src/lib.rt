//! Numbers that many threads draw, each by one atomic addition, so that every number below a bound
//! is drawn once and by one thread.
//!
//! A thread draws with a seat. Who holds all shares and has met the end knows that its own numbers
//! are all there are.
#![tactic(auto)]

mod rule;
mod seat;
mod table;

pub use seat::TicketSeat;
pub use table::TicketDraw;

#[cfg(test)]
mod tests;
