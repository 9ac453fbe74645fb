// The edges at each node, linked by their numbers.
ghost use Rattle.std.specs.Prelude.{◌≡◌, ◌+◌, ◌<◌, length, slice_index, IfOk, replicate};
ghost use Rattle.cfg_tree.specs.Chains.{AreChains, EndsAreBelow};
ghost use Rattle.cfg_tree.specs.Incident as spec;

use ir_tree::Edge;
use pgo_base::NoMemory;
use std::alloc::Global;

// One of the two ends of an edge: the node that it leaves, or the node that it enters.
#[derive(Clone, Copy)]
pub(crate) enum End {
    Tail,
    Head,
}

pub(crate) fn end_of(edge: &Edge, end: End) -> u32
    ensures { result ≡ spec.end_of end edge.now }
{
    match end {
        End::Tail => edge.from,
        End::Head => edge.to,
    }
}

// For each node the first edge that has an end there, and for each edge the next one at that node, each
// as one more than its number; 0 where there is none.
#[derive(Drop)]
pub(crate) struct Chains {
    first: Vec<u32>,
    next: Vec<u32>,
}

impl Chains {
    pub(crate) fn of(
        alloc: Global,
        edges: &[Edge],
        nodes: u32,
        end: End,
    ) -> Result<Chains, NoMemory>
        requires ends { EndsAreBelow end edges.now nodes }
        requires few { length edges.now < 4294967296 }
        ensures { IfOk result (λ c. AreChains end edges.now nodes c.first.items c.next.items) }
    {
        let mut first = vec![in alloc; 0; nodes as usize]?;
        let mut next = vec![in alloc; 0; edges.len()]?;
        link(edges, end, first.as_mut_slice(), next.as_mut_slice());
        Ok(Chains { first, next })
    }

    pub(crate) fn first(&self, node: u32) -> u32
        requires { node < length self.now.first.items }
        ensures { result ≡ slice_index self.now.first.items node }
    {
        self.first[node as usize]
    }

    pub(crate) fn next(&self, edge: u32) -> u32
        requires { edge < length self.now.next.items }
        ensures { result ≡ slice_index self.now.next.items edge }
    {
        self.next[edge as usize]
    }
}

// From the last edge to the first, each goes before those that are linked already.
fn link(edges: &[Edge], end: End, first: &mut [u32], next: &mut [u32])
    requires ends { EndsAreBelow end edges.now (length first.old) }
    requires none { first.old ≡ replicate (length first.old) 0 }
    requires places { length next.old ≡ length edges.now }
    requires few { length edges.now < 4294967296 }
    ensures { AreChains end edges.now (length first.old) first.new next.new }
{
    let mut k = edges.len();
    while k > 0 {
        k -= 1;
        let node = end_of(&edges[k], end) as usize;
        next[k] = first[node];
        first[node] = k as u32 + 1;
    }
}
