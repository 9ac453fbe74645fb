//! Profiles that own their records: merged from records, key by key, and written as LLVM's text profiles.
#![tactic(auto)]

mod error;
mod gathered;
mod joining;
mod order;
mod profile;
mod record;
mod site;
mod tally;
mod writer;

pub use error::MergeError;
pub use gathered::Gathered;
pub use order::any_order;
pub use profile::Profile;
pub use record::{ProfRecord, Target};
pub use tally::Tally;
pub use writer::write;

#[cfg(test)]
mod tests;
