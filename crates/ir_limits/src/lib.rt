//! The kind of a module, and the first limit that it passes.
#![tactic(auto)]

mod arrays;
mod counts;
mod globals;
mod kinds;
mod limits;
mod objects;
mod sites;
mod sums;

pub use kinds::kind_of;
pub use limits::passed;
