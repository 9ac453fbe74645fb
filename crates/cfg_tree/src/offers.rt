// The edges that may join a new node, in a heap: the heaviest first, and of these the one with the least
// number.
ghost use Rattle.std.specs.Prelude.{◌≡◌, ◌<◌, [], length, IfOk, OnOk};
ghost use Rattle.std.specs.BinaryHeap.{heap_items};
ghost use Rattle.cfg_tree.specs.Chains.{AreChains, EndsAreBelow};
ghost use Rattle.cfg_tree.specs.Incident.{numbers_at};
ghost use Rattle.cfg_tree.specs.Offers as spec;
ghost use Rattle.cfg_tree.specs.Offers.{AreIncident, Offers, OffersBoth, OffersOne};
ghost use Rattle.cfg_tree.specs.declared.chains.End.{End};
ghost use Rattle.cfg_tree.specs.declared.chains.End.TheVariants as ends;

use crate::chains::{Chains, End};
use ir_tree::Edge;
use pgo_base::NoMemory;
use std::alloc::Global;
use std::cmp::Reverse;
use std::collections::BinaryHeap;

pub(crate) type Offered = BinaryHeap<(u64, Reverse<u32>)>;

// The edges that leave each node, and those that enter it.
#[derive(Drop)]
pub(crate) struct Incident {
    tails: Chains,
    heads: Chains,
}

impl Incident {
    pub(crate) fn of(alloc: Global, edges: &[Edge], nodes: u32) -> Result<Incident, NoMemory>
        requires tails { EndsAreBelow ends.Tail edges.now nodes }
        requires heads { EndsAreBelow ends.Head edges.now nodes }
        requires few { length edges.now < 4294967296 }
        ensures { IfOk result (λ incident. AreIncident edges.now nodes incident) }
    {
        let tails = Chains::of(alloc, edges, nodes, End::Tail)?;
        let heads = Chains::of(alloc, edges, nodes, End::Head)?;
        Ok(Incident { tails, heads })
    }
}

// Offers the edges of a node whose ends are not both marked.
pub(crate) fn offer_edges(
    edges: &[Edge],
    weights: &[u64],
    incident: &Incident,
    node: u32,
    marks: &[bool],
    heap: &mut Offered,
) -> Result<(), NoMemory>
    requires incident { AreIncident edges.now (length marks.now) incident.now }
    requires tails { EndsAreBelow ends.Tail edges.now (length marks.now) }
    requires heads { EndsAreBelow ends.Head edges.now (length marks.now) }
    requires node { node < length marks.now }
    requires weights { length weights.now ≡ length edges.now }
    ensures { OnOk result (OffersBoth edges.now weights.now marks.now node (heap_items heap.old) (heap_items heap.new)) }
{
    offer_leaving(edges, weights, &incident.tails, node, marks, heap)?;
    offer_entering(edges, weights, &incident.heads, node, marks, heap)
}

// Those that leave the node.
fn offer_leaving(
    edges: &[Edge],
    weights: &[u64],
    chains: &Chains,
    node: u32,
    marks: &[bool],
    heap: &mut Offered,
) -> Result<(), NoMemory>
    requires chains { AreChains ends.Tail edges.now (length marks.now) chains.now.first.items chains.now.next.items }
    requires tails { EndsAreBelow ends.Tail edges.now (length marks.now) }
    requires heads { EndsAreBelow ends.Head edges.now (length marks.now) }
    requires node { node < length marks.now }
    requires weights { length weights.now ≡ length edges.now }
    ensures { OnOk result (Offers edges.now weights.now marks.now (numbers_at ends.Tail 0 edges.now node) [] (heap_items heap.old) (heap_items heap.new)) }
{
    offer_chain(edges, weights, chains, node, marks, heap)
}

// Those that enter the node.
fn offer_entering(
    edges: &[Edge],
    weights: &[u64],
    chains: &Chains,
    node: u32,
    marks: &[bool],
    heap: &mut Offered,
) -> Result<(), NoMemory>
    requires chains { AreChains ends.Head edges.now (length marks.now) chains.now.first.items chains.now.next.items }
    requires tails { EndsAreBelow ends.Tail edges.now (length marks.now) }
    requires heads { EndsAreBelow ends.Head edges.now (length marks.now) }
    requires node { node < length marks.now }
    requires weights { length weights.now ≡ length edges.now }
    ensures { OnOk result (Offers edges.now weights.now marks.now (numbers_at ends.Head 0 edges.now node) [] (heap_items heap.old) (heap_items heap.new)) }
{
    offer_chain(edges, weights, chains, node, marks, heap)
}

// Those that have one of their ends at the node.
fn offer_chain(
    edges: &[Edge],
    weights: &[u64],
    chains: &Chains,
    node: u32,
    marks: &[bool],
    heap: &mut Offered,
) -> Result<(), NoMemory>
    ghost end: { End }
    requires chains { AreChains end edges.now (length marks.now) chains.now.first.items chains.now.next.items }
    requires tails { EndsAreBelow ends.Tail edges.now (length marks.now) }
    requires heads { EndsAreBelow ends.Head edges.now (length marks.now) }
    requires node { node < length marks.now }
    requires weights { length weights.now ≡ length edges.now }
    ensures { OnOk result (Offers edges.now weights.now marks.now (numbers_at end 0 edges.now node) [] (heap_items heap.old) (heap_items heap.new)) }
{
    let mut place = chains.first(node);
    while place != 0 {
        offer(edges, weights, place - 1, marks, heap)?;
        place = chains.next(place - 1);
    }
    Ok(())
}

// An edge whose ends are both marked joins no node any more.
fn offer(
    edges: &[Edge],
    weights: &[u64],
    edge: u32,
    marks: &[bool],
    heap: &mut Offered,
) -> Result<(), NoMemory>
    requires edge { edge < length edges.now }
    requires weights { length weights.now ≡ length edges.now }
    requires tails { EndsAreBelow ends.Tail edges.now (length marks.now) }
    requires heads { EndsAreBelow ends.Head edges.now (length marks.now) }
    ensures { OnOk result (OffersOne edges.now weights.now marks.now edge (heap_items heap.old) (heap_items heap.new)) }
{
    if !is_joined(&edges[edge as usize], marks) {
        heap.push((weights[edge as usize], Reverse(edge)))?;
    }
    Ok(())
}

fn is_joined(edge: &Edge, marks: &[bool]) -> bool
    requires from { edge.now.from < length marks.now }
    requires to { edge.now.to < length marks.now }
    ensures { result ≡ spec.is_joined marks.now edge.now }
{
    marks[edge.from as usize] && marks[edge.to as usize]
}
