//! The profiles that commands read, each text as a judgement of what it is, and their merge, with the functions that read
//! and merge them.
#![tactic(auto)]

mod merging;
mod reading;

pub use merging::{merged, merged_alone};
pub use reading::{profile, profiles};
