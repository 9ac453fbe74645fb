// Where the counter of each edge stands.
ghost use Rattle.std.specs.Prelude.{◌≡◌, ℕ, ◌<◌, ◌≤◌, length, slice_index, IfOk};
ghost use Rattle.gen_code.specs.Ends.{AreDegrees, AreWithin};
ghost use Rattle.gen_code.specs.Tables as table;
ghost use Rattle.gen_code.specs.Ends as spec;
ghost use Rattle.gen_code.specs.declared.ends.End.TheVariants as ends;
ghost use Rattle.gen_plan.specs.Placing as placing;
ghost use Rattle.spanning_order.specs.Lists.{Among};

use crate::ends::{End, block_at, degrees};
use crate::tables::{at, ranks_of};
use cfg_edges::{Edge, Graph};
use pgo_base::NoMemory;
use std::alloc::Global;

// A graph with its counted edges, which are at the ends of so many blocks.
#[derive(Drop)]
pub(crate) struct Placing<'a> {
    pub(crate) graph: &'a Graph,
    pub(crate) counted: &'a [u32],
    pub(crate) blocks: usize,
    // how many edges leave each block, and how many enter it
    from: Vec<u32>,
    into: Vec<u32>,
    // the counter of each edge
    ranks: Vec<Option<u32>>,
    ghost tails_within: { AreWithin graph.now ends.Tail blocks },
    ghost heads_within: { AreWithin graph.now ends.Head blocks },
    ghost from_are: { AreDegrees graph.now ends.Tail graph.now.edges from.items },
    ghost into_are: { AreDegrees graph.now ends.Head graph.now.edges into.items },
    ghost ranks_are: { (k : ℕ) → table.at ranks.items k ≡ placing.counter_of counted.now k },
}

impl<'a> Placing<'a> {
    pub(crate) fn of(
        alloc: Global,
        graph: &'a Graph,
        counted: &'a [u32],
        blocks: usize,
    ) -> Result<Placing<'a>, NoMemory>
        requires tails { AreWithin graph.now ends.Tail blocks }
        requires heads { AreWithin graph.now ends.Head blocks }
        requires within { (k : ℕ) → Among k counted.now → k < length graph.now.edges }
        requires few { length counted.now < 4294967296 }
        ensures graph { IfOk result (λ made. made.graph.now ≡ graph.now) }
        ensures counted { IfOk result (λ made. made.counted.now ≡ counted.now) }
        ensures blocks { IfOk result (λ made. made.blocks ≡ blocks) }
    {
        let from = degrees(alloc, graph, End::Tail, blocks)?;
        let into = degrees(alloc, graph, End::Head, blocks)?;
        let ranks = ranks_of(alloc, counted, graph.edges().len())?;
        Ok(Placing {
            graph,
            counted,
            blocks,
            from,
            into,
            ranks,
        })
    }

    // The counter of the edge of this number, if it is counted.
    pub(crate) fn counter(&self, number: usize) -> Option<u32>
        ensures { result ≡ placing.counter_of self.now.counted.now number }
    {
        at(self.ranks.as_slice(), number)
    }

    fn is_at_tail(&self, edge: &Edge) -> bool
        ensures { result ≡ placing.at_tail self.now.graph.now edge.now }
    {
        is_only_one(self.from.as_slice(), edge.block)
    }

    fn is_at_head(&self, edge: &Edge) -> bool
        ensures { result ≡ placing.at_head self.now.graph.now edge.now }
    {
        !self.is_at_tail(edge) && is_only_one(self.into.as_slice(), self.graph.block_of(edge.to))
    }

    // Whether the counter of an edge stands in a new block on it.
    pub(crate) fn is_on_edge(&self, edge: &Edge) -> bool
        ensures { result ≡ placing.on_edge self.now.graph.now edge.now }
    {
        !self.is_at_tail(edge) && !self.is_at_head(edge)
    }

    // The block at whose head, or before whose terminator, the counter of an edge stands.
    pub(crate) fn counting_block(&self, end: End, edge: &Edge) -> Option<u32>
        ensures { result ≡ spec.counting_block self.now.graph.now end edge.now }
    {
        let stands = match end {
            End::Tail => self.is_at_tail(edge),
            End::Head => self.is_at_head(edge),
        };
        if stands {
            block_at(self.graph, end, edge)
        } else {
            None
        }
    }
}

// Whether there is a block, and one edge at it.
fn is_only_one(degrees: &[u32], block: Option<u32>) -> bool
    ensures { result ≡ placing.is_only_one (slice_index degrees.now) block }
{
    match block {
        Some(block) => matches!(degrees.get(block as usize), Some(1)),
        None => false,
    }
}
