//! Spanning orders of an edge graph, and the edges that keep a counter beside one.
#![tactic(auto)]

mod tree;

pub use tree::Tree;
