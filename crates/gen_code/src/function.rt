// The plan of a function.
ghost use Rattle.std.specs.Prelude.{◌≡◌, ◌==◌, not, length, IfOk};
ghost use Rattle.gen_code.specs.Planned.{HasPlan};
ghost use Rattle.gen_plan.specs.Gen.{gen_function};
ghost use Rattle.ir_tree.specs.Graphs.{graph_of};

use crate::blocks::Parts;
use crate::globals::record_name;
use cfg_edges::{Graph, function_hash, graphs_stand};
use cfg_tree::grow;
use count_plan::FunctionPlan;
use ir_tree::Function;
use pgo_base::NoMemory;
use std::alloc::Global;

/// The plan by which a function counts: a counter for each edge outside the spanning tree, and for the entry where it is counted
/// first; one for each select; and a note for each call through a register. New names are ones that the function doesn't have. The
/// time is that of sorting the edges. It refuses for want of memory alone.
pub fn plan_function(
    alloc: Global,
    function: &Function,
    entry_first: bool,
) -> Result<FunctionPlan, NoMemory>
    requires { HasPlan entry_first function.now }
    ensures { IfOk result (λ plan. plan ≡ gen_function entry_first function.now) }
{
    let (plan, _) = planned(alloc, function, entry_first)?;
    Ok(plan)
}

// The plan, and whether the function has a select that a walk leads to.
pub(crate) fn planned(
    alloc: Global,
    function: &Function,
    entry_first: bool,
) -> Result<(FunctionPlan, bool), NoMemory>
    requires { HasPlan entry_first function.now }
    ensures plan { IfOk result (λ made. made.0 ≡ gen_function entry_first function.now) }
    ensures selects { IfOk result (λ made. made.1 ≡ not (length (graph_of function.now).selects == 0)) }
{
    graphs_stand();
    let graph = Graph::of(alloc, function)?;
    let tree = grow(alloc, &graph, entry_first)?;
    let counted = tree.counted.as_slice();
    let counters = (counted.len() + graph.selects().len()) as u32;
    let parts = Parts::of_function(alloc, function, &graph, counted)?;
    let plan = FunctionPlan {
        symbol: record_name(alloc, &function.name)?,
        hash: function_hash(alloc, &graph, counters, entry_first)?,
        counters,
        blocks: parts.block_plans(alloc)?,
    };
    Ok((plan, !graph.selects().is_empty()))
}
