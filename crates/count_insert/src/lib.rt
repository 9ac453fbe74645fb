//! What a plan makes of a module, as code: the parts of the module move, and each function is rebuilt once.
#![tactic(auto)]

mod blocks;
mod calls;
mod entries;
mod heads;
mod insert;
mod queues;
mod ways;

pub use insert::{insert_into_function, insert_into_module};
