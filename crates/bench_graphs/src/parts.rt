// The graph of a function, its tree, and its counts.
ghost use Rattle.std.specs.Prelude.{◌≡◌, length};
ghost use Rattle.ir_tree.specs.Graphs.{nodes};
ghost use Rattle.spanning_order.specs.Counted.{AreCounted};
ghost use Rattle.spanning_order.specs.Spanning.{IsSpanningOrder};

use crate::graphable::has_graph;
use crate::measure::lap;
use crate::shapes::{Shape, function};
use anyhow::{Result, bail};
use cfg_edges::Graph;
use cfg_tree::{Tree, grow};
use flow_solve::solve;
use std::alloc::Global;
use std::rt::Clock;
use std::time::Instant;

/// Does all parts for a function of this shape with about so many edges.
pub fn run<R: Clock + Print + Eprint + AllocGlobal>(
    rt: &R,
    name: &str,
    shape: Shape,
    edges: u32,
    measured: bool,
) -> Result<()> {
    let alloc = rt.alloc();
    let function = function(alloc, shape, edges)?;
    if !has_graph(alloc, &function)? {
        bail!("no graph");
    }
    let mut clock = Instant::now(rt)?;
    let graph = Graph::of(alloc, &function)?;
    lap(rt, measured, name, "graph", &mut clock)?;
    let tree = grow(alloc, &graph, false)?;
    lap(rt, measured, name, "tree", &mut clock)?;
    let solved = is_solved(alloc, &graph, &tree)?;
    lap(rt, measured, name, "solved", &mut clock)?;
    let (nodes, edges) = (graph.nodes(), graph.edges().len());
    let counters = tree.counted.len();
    println!(rt; "{name}: nodes {nodes} edges {edges} counters {counters} solved {solved}")?;
    Ok(())
}

// Whether counters that are all 0 are those of a flow.
fn is_solved(alloc: Global, graph: &Graph, tree: &Tree) -> Result<bool>
    requires order { IsSpanningOrder graph.now.edges (nodes graph.now) tree.now.order }
    requires counted { AreCounted (length graph.now.edges) tree.now.order tree.now.counted }
{
    let edges = graph.edges().len();
    let counters = vec![in alloc; 0u64; tree.counted.len()]?;
    let mut work = vec![in alloc; 0i128; edges]?;
    let mut counts = vec![in alloc; 0u64; edges]?;
    let solved = solve(
        graph,
        tree,
        counters.as_slice(),
        work.as_mut_slice(),
        counts.as_mut_slice(),
    );
    Ok(solved.is_ok())
}
