// Counters at heads, before terminators and on edges, in one pass each.
ghost use Rattle.std.specs.Prelude.{◌≡◌, ℕ, ◌<◌, ◌==◌, ◌&&◌, None, cond, length, IfOk, OnOk};
ghost use Rattle.std.specs.Option.{option_map};
ghost use Rattle.gen_code.specs.Ends.{block_counter};
ghost use Rattle.gen_code.specs.Numbered.{number_at};
ghost use Rattle.gen_code.specs.OnEdges.{edge_on};
ghost use Rattle.gen_code.specs.Tables as table;
ghost use Rattle.gen_code.specs.Tables.{or_else};
ghost use Rattle.gen_plan.specs.Placing.{counter_of, leaves, on_edge};

use crate::ends::End;
use crate::numbers::Numbers;
use crate::placing::Placing;
use crate::tables::{no_numbers, put_first};
use cfg_edges::Edge;
use pgo_base::NoMemory;
use std::alloc::Global;

// The counter at this end of each block.
pub(crate) fn block_counters(
    alloc: Global,
    placing: &Placing<'_>,
    end: End,
) -> Result<Vec<Option<u32>>, NoMemory>
    ensures { IfOk result (λ made. (b : ℕ) → table.at made.items b ≡ block_counter placing.now.graph.now end placing.now.counted.now placing.now.graph.now.edges b) }
{
    let mut counters = no_numbers(alloc, placing.blocks)?;
    put_counters(placing, end, counters.as_mut_slice());
    Ok(counters)
}

// Puts the counters that stand at this end of blocks into a table without numbers.
fn put_counters(placing: &Placing<'_>, end: End, counters: &mut [Option<u32>])
    requires size { length counters.old ≡ placing.now.blocks }
    requires none { (b : ℕ) → table.at counters.old b ≡ None }
    ensures { (b : ℕ) → table.at counters.new b ≡ block_counter placing.now.graph.now end placing.now.counted.now placing.now.graph.now.edges b }
{
    let edges = placing.graph.edges();
    for (number, edge) in edges.iter().enumerate() {
        let block = placing.counting_block(end, edge);
        put_first(counters, block, placing.counter(number));
    }
}

// The counted edges that get new blocks, by block and successor position.
pub(crate) fn edges_with_blocks(alloc: Global, placing: &Placing<'_>) -> Result<Numbers, NoMemory>
    ensures { IfOk result (λ made. (b p : ℕ) → number_at made b p ≡ edge_on placing.now.graph.now placing.now.counted.now placing.now.graph.now.edges b p) }
{
    let mut made = Numbers::new(alloc);
    let edges = placing.graph.edges();
    for (number, edge) in edges.iter().enumerate() {
        add_edge(placing, number, edge, &mut made)?;
    }
    Ok(made)
}

fn add_edge(
    placing: &Placing<'_>,
    number: usize,
    edge: &Edge,
    made: &mut Numbers,
) -> Result<(), NoMemory>
    requires { number < 4294967296 }
    ensures { OnOk result ((b p : ℕ) → number_at made.new b p ≡ or_else (number_at made.old b p) (cond (leaves b edge.now && (edge.now.position == p && on_edge placing.now.graph.now edge.now)) (option_map (λ c. number) (counter_of placing.now.counted.now number)) None)) }
{
    if !placing.is_on_edge(edge) {
        return Ok(());
    }
    match (edge.block, placing.counter(number)) {
        (Some(block), Some(_)) => {
            made.add((u64::from(block), u64::from(edge.position)), number as u32)
        }
        _ => Ok(()),
    }
}
