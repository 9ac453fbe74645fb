//! The spanning tree of greatest static weight of a function's edge graph, and the edges beside it that
//! keep a counter.
#![tactic(auto)]

mod chains;
mod counted;
mod growth;
mod laws;
mod marks;
mod offers;
mod walk;
mod weights;

pub use growth::grow;
pub use laws::trees_span;
pub use spanning_order::Tree;
pub use weights::static_weights;
