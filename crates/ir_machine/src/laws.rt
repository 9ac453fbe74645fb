// What edges a run is counted by, as the clauses of a function that does nothing.
ghost use Rattle.std.specs.Prelude.{◌≡◌, ℕ, ◌<◌, Some, length, slice_get};
ghost use Rattle.ir_tree.specs.Functions.{function_at};
ghost use Rattle.ir_tree.specs.Graphs.{FlowGraph, HasGraph, graph_of};
ghost use Rattle.ir_tree.specs.declared.edge.Edge.{Edge};
ghost use Rattle.ir_tree.specs.declared.types.Function.{Function};
ghost use Rattle.ir_tree.specs.declared.types.Module.{Module};
ghost use Rattle.cfg_edges.specs.Graph.{EdgesStand};
ghost use Rattle.ir_machine.specs.Slots.{HasEdge};

use cfg_edges::graphs_stand;

/// Each edge of a function's graph is an edge that `trace_call` counts: of any graph whose edges
/// stand for ways out of the function's blocks or for its entry, and so of the function's own.
pub fn edges_are_counted()
    ensures stand { (m : Module) (k : ℕ) (f : Function) (g : FlowGraph) → function_at m k ≡ Some f → 0 < length f.blocks → EdgesStand f g → (n : ℕ) (e : Edge) → slice_get g.edges n ≡ Some e → HasEdge m k e.block e.position }
    ensures graph { (m : Module) (k : ℕ) (f : Function) → function_at m k ≡ Some f → HasGraph f → (n : ℕ) (e : Edge) → slice_get (graph_of f).edges n ≡ Some e → HasEdge m k e.block e.position }
{
    graphs_stand();
}
