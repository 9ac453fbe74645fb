//! The rules on operands, calls, returns and weights: the first that a function breaks.
#![tactic(auto)]

mod calls;
mod first;
mod items;
mod operands;
mod scope;
mod types;
mod weights;

pub use first::first_in_operands;
