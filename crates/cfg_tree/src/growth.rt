// The tree grows by the heaviest edge each time.
ghost use Rattle.std.specs.Prelude.{◌≡◌, ◌<◌, ◌+◌, [], ◌∷◌, length, IfOk, OnOk};
ghost use Rattle.std.specs.BinaryHeap.{heap_items};
ghost use Rattle.cfg_tree.specs.Chains.{EndsAreBelow};
ghost use Rattle.cfg_tree.specs.Growing.{Growing, IsNewEnd};
ghost use Rattle.cfg_tree.specs.Grown.{IsGrown};
ghost use Rattle.cfg_tree.specs.Offers.{AreIncident};
ghost use Rattle.cfg_tree.specs.Tree.{tree_of};
ghost use Rattle.cfg_tree.specs.Walking.{unentered};
ghost use Rattle.cfg_tree.specs.Weights.{static_weights};
ghost use Rattle.cfg_tree.specs.declared.chains.End.TheVariants as ends;
ghost use Rattle.ir_tree.specs.Graphs.{nodes};
ghost use Rattle.spanning_order.specs.Counted.{AreCounted};
ghost use Rattle.spanning_order.specs.Spanning.{IsSpanningOrder};

use crate::counted::counted_edges;
use crate::marks::no_marks;
use crate::offers::{Incident, Offered, offer_edges};
use crate::weights::static_weights;
use cfg_edges::Graph;
use ir_tree::Edge;
use pgo_base::NoMemory;
use seq::Seq;
use spanning_order::Tree;
use std::alloc::Global;
use std::cmp::Reverse;
use std::collections::BinaryHeap;

/// The spanning tree of a graph that takes again and again, of all edges that link a reached node to a
/// new one, the heaviest by static weight, and of these the one with the least number; and the edges that
/// keep a counter beside it. So counters come to stand on light edges, as LLVM's generating pass has them
/// (`CFGMST`). The time is that of sorting the edges.
pub fn grow(alloc: Global, graph: &Graph, entry_first: bool) -> Result<Tree, NoMemory>
    ensures value { IfOk result (λ tree. tree ≡ tree_of graph.now entry_first) }
    ensures grown { IfOk result (λ tree. IsGrown graph.now.edges (static_weights graph.now entry_first) (0 ∷ []) tree.order) }
    ensures spans { IfOk result (λ tree. IsSpanningOrder graph.now.edges (nodes graph.now) tree.order) }
    ensures beside { IfOk result (λ tree. AreCounted (length graph.now.edges) tree.order tree.counted) }
{
    let weights = static_weights(alloc, graph, entry_first)?;
    let edges = graph.edges();
    let order = order_of(alloc, edges, graph.nodes(), weights.as_slice())?;
    let counted = counted_edges(alloc, edges.len(), order.as_slice(), entry_first)?;
    Ok(Tree {
        order: Seq::of(order),
        counted: Seq::of(counted),
    })
}

fn order_of(
    alloc: Global,
    edges: &[Edge],
    nodes: u32,
    weights: &[u64],
) -> Result<Vec<u32>, NoMemory>
    requires tails { EndsAreBelow ends.Tail edges.now nodes }
    requires heads { EndsAreBelow ends.Head edges.now nodes }
    requires some { 0 < nodes }
    requires few { length edges.now < 4294967296 }
    requires weights { length weights.now ≡ length edges.now }
    ensures { IfOk result (λ order. IsGrown edges.now weights.now (0 ∷ []) order.items) }
{
    let incident = Incident::of(alloc, edges, nodes)?;
    let mut marks = no_marks(alloc, nodes as usize)?;
    marks[0] = true;
    let mut heap = BinaryHeap::new(alloc);
    offer_edges(edges, weights, &incident, 0, marks.as_slice(), &mut heap)?;
    take_all(alloc, edges, weights, &incident, marks.as_mut_slice(), heap)
}

// Takes the best of the offered edges until none is left, or every node is reached. One whose ends were both
// reached since it was offered is passed over.
fn take_all(
    alloc: Global,
    edges: &[Edge],
    weights: &[u64],
    incident: &Incident,
    marks: &mut [bool],
    mut heap: Offered,
) -> Result<Vec<u32>, NoMemory>
    requires incident { AreIncident edges.now (length marks.old) incident.now }
    requires tails { EndsAreBelow ends.Tail edges.now (length marks.old) }
    requires heads { EndsAreBelow ends.Head edges.now (length marks.old) }
    requires weights { length weights.now ≡ length edges.now }
    requires growing { Growing edges.now weights.now marks.old (heap_items heap) [] }
    requires first { 1 + unentered marks.old ≡ length marks.old }
    ensures { IfOk result (λ order. IsGrown edges.now weights.now (0 ∷ []) order.items) }
{
    let mut order = Vec::new(alloc);
    while let Some((_, Reverse(number))) = heap.pop() {
        match new_end(&edges[number as usize], marks) {
            None => {}
            Some(node) => {
                marks[node as usize] = true;
                order.push(number)?;
                offer_edges(edges, weights, incident, node, marks, &mut heap)?;
                if order.len() + 1 == marks.len() {
                    return Ok(order);
                }
            }
        }
    }
    Ok(order)
}

// The end of an edge that has no mark.
fn new_end(edge: &Edge, marks: &[bool]) -> Option<u32>
    requires from { edge.now.from < length marks.now }
    requires to { edge.now.to < length marks.now }
    ensures { IsNewEnd edge.now marks.now result }
{
    if !marks[edge.from as usize] {
        Some(edge.from)
    } else if !marks[edge.to as usize] {
        Some(edge.to)
    } else {
        None
    }
}
