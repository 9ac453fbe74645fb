// What holds of the tree of every graph.
ghost use Rattle.std.specs.Prelude.{Bool};
ghost use Rattle.cfg_edges.specs.Graph.{IsFlowGraph};
ghost use Rattle.cfg_tree.specs.Tree.{IsTreeOf, tree_of};
ghost use Rattle.ir_tree.specs.Graphs.{FlowGraph};

/// The tree of any graph of a function spans it: edges join each node to node 0, each of them the heaviest
/// that joins a new node. The counted edges are all others, and the entry edge where the entry is counted
/// first.
pub fn trees_span()
    ensures { (g : FlowGraph) (entry_first : Bool) → IsFlowGraph g → IsTreeOf g entry_first (tree_of g entry_first) }
{}
