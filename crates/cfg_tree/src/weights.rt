// The static weight of each edge.
ghost use Rattle.std.specs.Prelude.{◌≡◌, ◌*◌, ◌<◌, ◌≤◌, ◌&&◌, if◌then◌else◌, length, nat_lt, slice_index, IfOk};
ghost use Rattle.cfg_tree.specs.Chains.{EndsAreBelow};
ghost use Rattle.cfg_tree.specs.Incident.{AreDegrees};
ghost use Rattle.cfg_tree.specs.Weights as spec;
ghost use Rattle.cfg_tree.specs.declared.chains.End.TheVariants as ends;

use crate::chains::{End, end_of};
use crate::walk::back_edges;
use cfg_edges::Graph;
use ir_tree::Edge;
use pgo_base::NoMemory;
use std::alloc::Global;

/// A guess at how often each edge is walked, made from the graph alone, by the edges' numbers. The edge
/// into the entry has 1, or 0 where the entry is counted first; an exit has 1; an edge that leads back to
/// a node which the depth-first walk has entered and not finished has 20; any other has 2. A critical
/// edge has a thousand times that, since a counter on it would need a block of its own (LLVM weighs
/// critical edges so too: `CFGMST`, "CriticalEdgeMultiplier"). The time is linear in the edges.
pub fn static_weights(alloc: Global, graph: &Graph, entry_first: bool) -> Result<Vec<u64>, NoMemory>
    ensures { IfOk result (λ weights. weights.items ≡ spec.static_weights graph.now entry_first) }
{
    weights_of(alloc, graph.edges(), graph.nodes(), entry_first)
}

// The same over the edges of so many nodes.
fn weights_of(
    alloc: Global,
    edges: &[Edge],
    nodes: u32,
    entry_first: bool,
) -> Result<Vec<u64>, NoMemory>
    requires tails { EndsAreBelow ends.Tail edges.now nodes }
    requires heads { EndsAreBelow ends.Head edges.now nodes }
    requires some { 1 < nodes }
    requires few { length edges.now < 4294967296 }
    ensures { IfOk result (λ weights. weights.items ≡ spec.weights_of nodes edges.now entry_first) }
{
    let back = back_edges(alloc, edges, nodes)?;
    let outs = degrees(alloc, edges, nodes, End::Tail)?;
    let ins = degrees(alloc, edges, nodes, End::Head)?;
    let mut weights = Vec::with_capacity(alloc, edges.len())?;
    for (k, edge) in edges.iter().enumerate() {
        let critical = is_critical(edge, outs.as_slice(), ins.as_slice());
        let base = base_weight(entry_first, k, edge.to, back[k]);
        weights.push(scaled(critical, base))?;
    }
    Ok(weights)
}

fn scaled(critical: bool, weight: u64) -> u64
    requires { weight ≤ 20 }
    ensures { result ≡ (if critical then 1000 * weight else weight) }
{
    if critical { 1000 * weight } else { weight }
}

// Whether an edge is one of several at both its ends.
fn is_critical(edge: &Edge, outs: &[u32], ins: &[u32]) -> bool
    requires tail { edge.now.from < length outs.now }
    requires head { edge.now.to < length ins.now }
    ensures { result ≡ (nat_lt 1 (slice_index outs.now edge.now.from) && nat_lt 1 (slice_index ins.now edge.now.to)) }
{
    outs[edge.from as usize] > 1 && ins[edge.to as usize] > 1
}

// The weight of an edge that is not critical.
fn base_weight(entry_first: bool, number: usize, to: u32, leads_back: bool) -> u64
    ensures weight { result ≡ spec.base_weight entry_first number to leads_back }
    ensures small { result ≤ 20 }
{
    if number == 0 {
        if entry_first { 0 } else { 1 }
    } else if to == 0 {
        1
    } else if leads_back {
        20
    } else {
        2
    }
}

// How many edges have this end at each node.
fn degrees(alloc: Global, edges: &[Edge], nodes: u32, end: End) -> Result<Vec<u32>, NoMemory>
    requires ends { EndsAreBelow end edges.now nodes }
    requires few { length edges.now < 4294967296 }
    ensures { IfOk result (λ degrees. AreDegrees end edges.now nodes degrees.items) }
{
    let mut degrees = vec![in alloc; 0; nodes as usize]?;
    for edge in edges {
        degrees[end_of(edge, end) as usize] += 1;
    }
    Ok(degrees)
}
