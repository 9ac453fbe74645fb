//! A module that is lowered keeps the rules.
#![tactic(auto)]

mod laws;

pub use laws::{
    asks_are_small, functions_stay_formed, functions_stay_small, globals_stay_formed,
    kind_is_lowered, symbols_stay_apart, units_are_told,
};
