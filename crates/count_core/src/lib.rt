//! The pure machine under the shared tables: words that many threads change in single atomic steps,
//! and for each thread a view of what it has done. `play` makes one step of the machine.
//!
//! The definitions of `specs/` say which steps are allowed, what each does, and the invariant that
//! ties the words to what the views did, so that no event is lost or invented.
#![tactic(auto)]

mod allowed;
mod laws;
mod player;
mod row_steps;
mod seat_steps;
mod state;
mod step;
mod sums;
mod word_steps;

pub use laws::{kept_keys_stand, one_did_all, reached_states_are_cores, steps_keep};
pub use player::play;
pub use state::{CoreState, CoreView, Layout, Opening, Walk, opening_state};
pub use step::{CoreStep, PlayError};

#[cfg(test)]
mod tests;
