//! A checked module made one that counts.
#![tactic(auto)]

mod counting;
mod error;
mod laws;

pub use counting::gen_module;
pub use error::GenError;
pub use laws::plain_have_plans;
