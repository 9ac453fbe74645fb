// A spanning order and its counted edges.

use seq::Seq;

/// A spanning tree of a function's edge graph, by the numbers of edges. `order` lists its edges as they
/// join one node after the other to node 0. `counted` lists by rising number the edges that have a
/// counter: all others, and in a profile that counts every entry edge 0 as well.
#[derive(Debug, Drop)]
pub struct Tree {
    pub order: Seq<u32>,
    pub counted: Seq<u32>,
}
