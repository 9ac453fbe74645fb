// The one flow that has given counters.
ghost use Rattle.std.specs.Prelude.{◌≡◌, ◌<◌, ◌≤◌, length, OnOk, IfErr};
ghost use Rattle.ir_tree.specs.Graphs.{nodes};
ghost use Rattle.spanning_order.specs.Counted.{AreCounted};
ghost use Rattle.spanning_order.specs.Spanning.{IsSpanningOrder, EndsAreNodes};
ghost use Rattle.flow_solve.specs.Solved.{AreSolved, IsRefused};

use crate::SolveError;
use crate::counters::{check_entry, write_counters};
use crate::ends::find_ends;
use crate::nets::{merge_nets, pay_counters};
use crate::values::write_values;
use cfg_edges::Graph;
use ir_tree::Edge;
use spanning_order::Tree;

/// Solves every edge's count from the counters of the counted edges: of all ways to give each edge a
/// whole number, so that at every node as much flows in as out, just one has those counters on the
/// edges outside the spanning order. Each edge of the order is solved once, from the last to the first,
/// as LLVM's profile use does (`PGOInstrumentation`, "populateCounters"). `counts` gets the numbers by
/// edge; after an error it is open. `work` has a place for each edge, and what it ends with is open.
/// Takes no memory.
pub fn solve(
    graph: &Graph,
    tree: &Tree,
    counters: &[u64],
    work: &mut [i128],
    counts: &mut [u64],
) -> Result<(), SolveError>
    requires order { IsSpanningOrder graph.now.edges (nodes graph.now) tree.now.order }
    requires counted { AreCounted (length graph.now.edges) tree.now.order tree.now.counted }
    requires counters { length counters.now ≡ length tree.now.counted }
    requires work { length work.old ≡ length graph.now.edges }
    requires counts { length counts.old ≡ length graph.now.edges }
    ensures ok { OnOk result (AreSolved graph.now.edges tree.now.order tree.now.counted counters.now counts.new) }
    ensures err { IfErr result (IsRefused graph.now.edges tree.now.order tree.now.counted counters.now) }
{
    let edges = graph.edges();
    let order = tree.order.as_slice();
    let counted = tree.counted.as_slice();
    solve_edges(edges, graph.nodes(), order, counted, counters, work, counts)
}

// The same over the edges of so many nodes.
fn solve_edges(
    edges: &[Edge],
    nodes: u32,
    order: &[u32],
    counted: &[u32],
    counters: &[u64],
    work: &mut [i128],
    counts: &mut [u64],
) -> Result<(), SolveError>
    requires nodes { EndsAreNodes edges.now nodes }
    requires some { 0 < nodes }
    requires enough { nodes ≤ length edges.now }
    requires few { length edges.now < 4294967296 }
    requires order { IsSpanningOrder edges.now nodes order.now }
    requires counted { AreCounted (length edges.now) order.now counted.now }
    requires counters { length counters.now ≡ length counted.now }
    requires work { length work.old ≡ length edges.now }
    requires counts { length counts.old ≡ length edges.now }
    ensures ok { OnOk result (AreSolved edges.now order.now counted.now counters.now counts.new) }
    ensures err { IfErr result (IsRefused edges.now order.now counted.now counters.now) }
{
    find_ends(edges, order, work, counts);
    work.fill(0);
    pay_counters(edges, counted, counters, counts, work);
    merge_nets(edges, order, counts, work);
    let entry_end = counts[0];
    write_values(edges, work, counts)?;
    check_entry(entry_end, counted, counters, counts[0])?;
    write_counters(counted, counters, counts);
    Ok(())
}
