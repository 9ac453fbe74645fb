// What holds of the graph of every function.
ghost use Rattle.cfg_edges.specs.Graph.{AreNumbered, EachHasEdge, EdgesStand, IsFlowGraph, IsGraphOf, NodesStand, SuccessorsAreReached};
ghost use Rattle.ir_tree.specs.Graphs.{HasGraph, graph_of};
ghost use Rattle.ir_tree.specs.declared.types.Function.{Function};

use block_search::reached_are_marks;

/// The graph of a function that has one. Its nodes are the blocks to which a walk leads from the entry,
/// and the successors of these are among them. Each of its edges stands for one way out of one of these,
/// or for the entry, and each way out has one. The edge of a block and a position has the number that
/// the block's first edge plus the position gives.
pub fn graphs_stand()
    ensures relation { (f : Function) → HasGraph f → IsGraphOf f (graph_of f) }
    ensures whole { (f : Function) → HasGraph f → IsFlowGraph (graph_of f) }
    ensures edges { (f : Function) → HasGraph f → EdgesStand f (graph_of f) }
    ensures each { (f : Function) → HasGraph f → EachHasEdge f (graph_of f) }
    ensures nodes { (f : Function) → HasGraph f → NodesStand f (graph_of f) }
    ensures successors { (f : Function) → HasGraph f → SuccessorsAreReached f }
    ensures numbered { (f : Function) → HasGraph f → AreNumbered f (graph_of f) }
{
    reached_are_marks();
}
