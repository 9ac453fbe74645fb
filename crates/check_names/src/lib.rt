//! The rules on names and globals: the first that a module breaks.
#![tactic(auto)]

mod declared;
mod distinct;
mod first;
mod initialised;
mod kinds;
mod naming;
mod place;
mod records;
mod reserved;
mod seen;
mod unit;
mod units;
mod values;

pub use first::first_of_names;

#[cfg(test)]
mod tests;
