// The blocks at the ends of edges, and how many edges each block is an end of.
ghost use Rattle.std.specs.Prelude.{◌≡◌, ℕ, ◌+◌, ◌<◌, cond, length, slice_index, IfOk, IfSome};
ghost use Rattle.gen_code.specs.Ends as spec;
ghost use Rattle.gen_code.specs.Ends.{AreDegrees, AreWithin};
ghost use Rattle.ir_model.specs.Log.{is_at};

use cfg_edges::{Edge, Graph};
use pgo_base::NoMemory;
use std::alloc::Global;

#[derive(Clone, Copy)]
pub(crate) enum End {
    Tail,
    Head,
}

// The block at an end of an edge. The entry edge has none at its tail, and an exit none at its head.
pub(crate) fn block_at(graph: &Graph, end: End, edge: &Edge) -> Option<u32>
    ensures { result ≡ spec.block_at graph.now end edge.now }
{
    match end {
        End::Tail => edge.block,
        End::Head => graph.block_of(edge.to),
    }
}

// How many edges have each block at this end.
pub(crate) fn degrees(
    alloc: Global,
    graph: &Graph,
    end: End,
    blocks: usize,
) -> Result<Vec<u32>, NoMemory>
    requires { AreWithin graph.now end blocks }
    ensures { IfOk result (λ degrees. AreDegrees graph.now end graph.now.edges degrees.items) }
{
    let mut degrees = vec![in alloc; 0u32; blocks]?;
    raise_all(graph, end, degrees.as_mut_slice());
    Ok(degrees)
}

// Counts the edges that have each block at this end, from degrees of 0 on.
fn raise_all(graph: &Graph, end: End, degrees: &mut [u32])
    requires within { AreWithin graph.now end (length degrees.old) }
    requires none { (b : ℕ) → slice_index degrees.old b ≡ 0 }
    ensures { AreDegrees graph.now end graph.now.edges degrees.new }
{
    let edges = graph.edges();
    for edge in edges {
        raise(degrees, block_at(graph, end, edge));
    }
}

// The degree of a block rises by one.
fn raise(degrees: &mut [u32], block: Option<u32>)
    requires within { IfSome block (λ b. b < length degrees.old) }
    requires few { (b : ℕ) → slice_index degrees.old b < 4294967295 }
    ensures size { length degrees.new ≡ length degrees.old }
    ensures raised { (b : ℕ) → slice_index degrees.new b ≡ slice_index degrees.old b + cond {A = ℕ} (is_at b block) 1 0 }
{
    if let Some(block) = block {
        degrees[block as usize] += 1;
    }
}
