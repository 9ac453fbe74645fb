// The law over runs, trees and solving, the clause of a function that does nothing.
ghost use Rattle.std.specs.Prelude.{◌≡◌, ℕ, Bool, List, Some, length};
ghost use Rattle.cfg_tree.specs.Tree.{tree_of};
ghost use Rattle.ir_model.specs.declared.result.Call.{Call};
ghost use Rattle.ir_tree.specs.Functions.{function_at};
ghost use Rattle.ir_tree.specs.Graphs.{HasGraph, graph_of, nodes};
ghost use Rattle.ir_tree.specs.declared.types.Function.{Function};
ghost use Rattle.ir_tree.specs.declared.types.Module.{Module};
ghost use Rattle.solved_back.specs.SolvedBack.{AreSolvedBack};
ghost use Rattle.spanning_order.specs.Counted.{AreCounted};
ghost use Rattle.spanning_order.specs.Spanning.{IsSpanningOrder};
ghost use Rattle.walk_flow.specs.Traversed.{AllReturn};

use cfg_edges::graphs_stand;
use cfg_tree::trees_span;
use flow_solve::counters_have_one_flow;
use walk_flow::traversals_are_a_flow;

/// Take a function of any module and calls that all return, and count only how often the edges outside a
/// spanning order are walked: solving gives back how often each edge is walked, and refuses nothing. So
/// it is for every spanning order, and for the tree of the function's graph in either mode.
pub fn traversals_are_solved_back()
    ensures any { (m : Module) (k : ℕ) (f : Function) (calls : List Call) (n : ℕ) (order counted : List ℕ) → function_at m k ≡ Some f → HasGraph f → AllReturn m calls n → IsSpanningOrder (graph_of f).edges (nodes (graph_of f)) order → AreCounted (length (graph_of f).edges) order counted → AreSolvedBack m k f calls n order counted }
    ensures tree { (m : Module) (k : ℕ) (f : Function) (calls : List Call) (n : ℕ) (entry_first : Bool) → function_at m k ≡ Some f → HasGraph f → AllReturn m calls n → AreSolvedBack m k f calls n (tree_of (graph_of f) entry_first).order (tree_of (graph_of f) entry_first).counted }
{
    graphs_stand();
    trees_span();
    counters_have_one_flow();
    traversals_are_a_flow();
}
