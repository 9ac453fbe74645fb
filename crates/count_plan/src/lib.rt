//! What counting puts into a module, as data: a plan for each block says which counters rise at its head, before its
//! terminator and on its ways out, and which selects and calls are watched. The module that is made from it is a definition.
#![tactic(auto)]

mod laws;
mod plan;

pub use laws::blocks_stay;
pub use plan::{BlockPlan, FunctionPlan, ModulePlan, NewBlock, Watch};
