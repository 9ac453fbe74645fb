//! A function that counts keeps the rules, where the plan by which it counts fits it.
#![tactic(auto)]

mod laws;

pub use laws::{
    functions_grow_little, functions_stay_formed, limits_are_kept, names_are_plain,
    names_stay_apart, reordered_are_as_large,
};
