//! A function's edges: its reachable blocks as nodes, an edge for each successor and each exit, the calls
//! through a local and the selects of its blocks, and the hash of all of it.
#![tactic(auto)]

mod edges;
mod graph;
mod hash;
mod labels;
mod laws;
mod nodes;
mod places;
mod rows;

pub use graph::Graph;
pub use hash::function_hash;
pub use ir_tree::Edge;
pub use laws::graphs_stand;
pub use rows::rows_of;

#[cfg(test)]
mod tests;
