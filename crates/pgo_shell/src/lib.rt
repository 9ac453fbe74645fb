//! The shell of every command: it reads the command's files, lets the command work on their texts, delivers what it
//! made, and says on the error output how that ended.
#![tactic(auto)]

mod command;
mod delivering;
mod message;
mod performing;
mod reading;
mod status;
mod stop;

pub use command::{Command, Product, Refusal};
pub use message::say;
pub use performing::perform;
pub use status::Status;
pub use stop::Stop;

#[cfg(test)]
mod tests;
