//! The texts of a run that counted: the lines of its sites, and its profile.
#![tactic(auto)]

mod lines;
mod parts;
mod profile;
mod records;

pub use lines::site_lines;
pub use profile::profile_text;
