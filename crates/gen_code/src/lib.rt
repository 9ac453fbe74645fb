//! The plan by which a function or a module counts, as code: from the edge graph, its spanning tree, its selects and calls
//! through registers, and fresh names.
#![tactic(auto)]

mod blocks;
mod ends;
mod firsts;
mod fresh;
mod function;
mod globals;
mod module;
mod numbers;
mod placing;
mod tables;

pub use function::plan_function;
pub use module::plan_module;
