// The edges of a function's edge graph.

/// An edge from one node to another, in the numbering of the edge graph: node 0 is outside the
/// function, and its reachable blocks are nodes 1 and up in text order. `block` is the block that the
/// edge leaves, by its number in text order, and `position` that of the successor in the block's
/// terminator, 0 at the exit of a block (LLVM Language Reference, "Terminator Instructions"). The edge
/// into the entry leaves no block.
#[derive(Clone, Copy, Debug, PartialEq, Eq)]
pub struct Edge {
    pub from: u32,
    pub to: u32,
    pub block: Option<u32>,
    pub position: u32,
}
