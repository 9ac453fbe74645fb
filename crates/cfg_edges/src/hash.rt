// The hash of a function's edge graph.
ghost use Rattle.std.specs.Prelude.{◌≡◌, ◌∷◌, ◌++◌, decimal, IfOk, OnOk};
ghost use Rattle.pgo_base.specs.Hash.{hash8};
ghost use Rattle.cfg_edges.specs.Hash.{ends, hash_text, mode_numbers, spaced};

use crate::graph::Graph;
use ir_tree::Edge;
use itoa::Buffer;
use pgo_base::NoMemory;
use std::alloc::Global;

/// The hash of a function by which its profile record is matched, as LLVM's profiles have one for the
/// function's control flow: the first 8 bytes, little-endian, of the MD5 of a decimal text parted by
/// single spaces. The text has the number of nodes, the number of edges, the ends of each edge, the
/// numbers of counters, of sites and of selects, and, where the entry is counted first, a 1.
pub fn function_hash(
    alloc: Global,
    graph: &Graph,
    counters: u32,
    entry_first: bool,
) -> Result<u64, NoMemory>
    ensures { IfOk result (λ hash. hash ≡ hash8 (hash_text graph.now counters entry_first)) }
{
    let text = text_of(alloc, graph, counters, entry_first)?;
    Ok(pgo_base::hash8(text.as_slice()))
}

#[tactic(auto, unfolding(crate::specs::Hash::hash_text))]
fn text_of(
    alloc: Global,
    graph: &Graph,
    counters: u32,
    entry_first: bool,
) -> Result<Vec<u8>, NoMemory>
    ensures { IfOk result (λ text. text.items ≡ hash_text graph.now counters entry_first) }
{
    let mut text = Vec::new(alloc);
    push_number(u64::from(graph.nodes()), &mut text)?;
    push_spaced(graph.edges().len() as u64, &mut text)?;
    push_ends(graph.edges(), &mut text)?;
    push_spaced(u64::from(counters), &mut text)?;
    push_spaced(graph.sites().len() as u64, &mut text)?;
    push_spaced(graph.selects().len() as u64, &mut text)?;
    push_mode(entry_first, &mut text)?;
    Ok(text)
}

// Appends where each edge comes from and leads to.
fn push_ends(edges: &[Edge], text: &mut Vec<u8>) -> Result<(), NoMemory>
    ensures { OnOk result (text.new.items ≡ text.old.items ++ spaced (ends edges.now)) }
{
    for edge in edges {
        push_spaced(u64::from(edge.from), text)?;
        push_spaced(u64::from(edge.to), text)?;
    }
    Ok(())
}

fn push_mode(entry_first: bool, text: &mut Vec<u8>) -> Result<(), NoMemory>
    ensures { OnOk result (text.new.items ≡ text.old.items ++ spaced (mode_numbers entry_first)) }
{
    if entry_first {
        push_spaced(1, text)?;
    }
    Ok(())
}

// Appends a space and a number in decimal.
fn push_spaced(number: u64, text: &mut Vec<u8>) -> Result<(), NoMemory>
    ensures { OnOk result (text.new.items ≡ text.old.items ++ 32 ∷ decimal number) }
{
    text.push(b' ')?;
    push_number(number, text)
}

// Appends a number in decimal.
fn push_number(number: u64, text: &mut Vec<u8>) -> Result<(), NoMemory>
    ensures { OnOk result (text.new.items ≡ text.old.items ++ decimal number) }
{
    text.extend_from_slice(Buffer::new().format(number).as_bytes())?;
    Ok(())
}
