//! A profile in text (LLVM's text profiles), borrowed: names are slices of the text, and counters, sites and targets are
//! read from its lines as they are asked for.
#![tactic(auto)]

mod counters;
mod error;
mod fault;
mod fields;
mod laws;
mod lines;
mod numbers;
mod plain;
mod record;
mod sites;
mod targets;
mod view;
mod words;

pub use counters::CounterLines;
pub use error::ViewError;
pub use laws::{looking_ahead, one_profile, refused_examples, spelled_examples};
pub use record::RecordView;
pub use sites::SiteLines;
pub use targets::{SiteView, TargetLines};
pub use view::{ProfileView, TEXT_MOST};

#[cfg(test)]
mod tests;
