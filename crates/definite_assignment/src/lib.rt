//! Which registers are assigned on every walk to a block, 64 blocks that assign at a time.
#![tactic(auto)]

mod exposed;
mod givers;
mod settling;

pub use exposed::first_exposed;
pub use givers::Use;
pub use settling::assigned;

#[cfg(test)]
mod tests;
