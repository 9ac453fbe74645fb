//! The rules of a module in the groups in which they are tried, as definitions.
#![tactic(auto)]
