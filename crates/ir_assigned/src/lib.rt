//! The first register that is read where some walk hasn't assigned it.
#![tactic(auto)]

mod laws;
mod reads;
mod unready;

pub use laws::unready_are_places;
pub use unready::first_unready;
