//! One new block on one edge of a function, as code.
#![tactic(auto)]

mod make;

pub use make::split;
