// The law that ties runs to edge graphs, the clause of a function that does nothing.
ghost use Rattle.std.specs.Prelude.{◌≡◌, ℕ, List, Some};
ghost use Rattle.ir_tree.specs.Functions.{function_at};
ghost use Rattle.ir_model.specs.declared.result.Call.{Call};
ghost use Rattle.ir_tree.specs.Flows.{IsFlow};
ghost use Rattle.ir_tree.specs.Graphs.{HasGraph, graph_of};
ghost use Rattle.ir_tree.specs.declared.types.Function.{Function};
ghost use Rattle.ir_tree.specs.declared.types.Module.{Module};
ghost use Rattle.walk_flow.specs.Traversed.{AllReturn, edge_traversals};

use cfg_edges::graphs_stand;
use ir_model::walks_are_a_flow;

/// The traversals of the edges of a function's graph, in the runs of calls that all return, are a flow of
/// it: at every node as many walks lead in as lead out. The function is any one of the module that has a
/// graph, called itself or not; the module need not be accepted.
pub fn traversals_are_a_flow()
    ensures { (m : Module) (k : ℕ) (f : Function) (calls : List Call) (n : ℕ) → function_at m k ≡ Some f → HasGraph f → AllReturn m calls n → IsFlow (graph_of f).edges (edge_traversals m k f calls n) }
{
    graphs_stand();
    walks_are_a_flow();
}
