//! The texts that commands read, each as a judgement of what it is, with the function that reads it: a module, its kind,
//! and calls on it.
#![tactic(auto)]

mod reading;
mod reasons;

pub use reading::{calls, code, plain_code, program, wrong_kind};
