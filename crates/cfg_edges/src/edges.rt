// The edges out of each block.
ghost use Rattle.std.specs.Prelude.{◌≡◌, ℕ, ◌<◌, ◌++◌, length, IfOk, OnOk, Some, slice_get};
ghost use Rattle.ir_tree.specs.Edges.{row_edges, block_edges, edges_by};
ghost use Rattle.ir_tree.specs.Reach.{row};

use block_search::Rows;
use ir_tree::Edge;
use pgo_base::NoMemory;
use std::alloc::Global;

const ENTRY: Edge = Edge {
    from: 0,
    to: 1,
    block: None,
    position: 0,
};

// The edge into the entry, then the edges out of these blocks.
pub(crate) fn edges_of(
    alloc: Global,
    nodes: &[u32],
    rows: &Rows,
    blocks: &[u32],
) -> Result<Vec<Edge>, NoMemory>
    requires size { length nodes.now ≡ length rows.now }
    requires blocks { (k b : ℕ) → slice_get blocks.now k ≡ Some b → b < length rows.now }
    requires targets { (b p t : ℕ) → slice_get (row rows.now b) p ≡ Some t → t < length rows.now }
    requires few { (b : ℕ) → length (row rows.now b) < 4294967296 }
    ensures { IfOk result (λ edges. edges.items ≡ edges_by nodes.now rows.now blocks.now) }
{
    let mut edges = Vec::new(alloc);
    edges.push(ENTRY)?;
    for block in blocks {
        let row = rows.row(*block as usize);
        push_block(nodes, *block, row, &mut edges)?;
    }
    Ok(edges)
}

fn push_block(nodes: &[u32], block: u32, row: &[u32], edges: &mut Vec<Edge>) -> Result<(), NoMemory>
    requires block { block < length nodes.now }
    requires targets { (p t : ℕ) → slice_get row.now p ≡ Some t → t < length nodes.now }
    requires few { length row.now < 4294967296 }
    ensures { OnOk result (edges.new.items ≡ edges.old.items ++ block_edges nodes.now block row.now) }
{
    if row.is_empty() {
        let exit = Edge {
            from: nodes[block as usize],
            to: 0,
            block: Some(block),
            position: 0,
        };
        edges.push(exit)?;
        return Ok(());
    }
    push_row(nodes, block, row, edges)
}

fn push_row(nodes: &[u32], block: u32, row: &[u32], edges: &mut Vec<Edge>) -> Result<(), NoMemory>
    requires block { block < length nodes.now }
    requires targets { (p t : ℕ) → slice_get row.now p ≡ Some t → t < length nodes.now }
    requires few { length row.now < 4294967296 }
    ensures { OnOk result (edges.new.items ≡ edges.old.items ++ row_edges nodes.now block 0 row.now) }
{
    let from = nodes[block as usize];
    for (position, target) in row.iter().enumerate() {
        edges.push(Edge {
            from,
            to: nodes[*target as usize],
            block: Some(block),
            position: position as u32,
        })?;
    }
    Ok(())
}
