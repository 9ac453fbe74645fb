// The successors of each block by number.
ghost use Rattle.std.specs.Prelude.{◌≡◌, ◌<◌, ◌++◌, ◌∷◌, [], length, map, IfOk, OnOk};
ghost use Rattle.cfg_edges.specs.Blocks.{place_in, places_in};
ghost use Rattle.ir_tree.specs.Edges.{rows};
ghost use Rattle.ir_tree.specs.Successors.{successors};

use crate::labels::Labels;
use block_search::Rows;
use ir_tree::{Block, Name, Term};
use pgo_base::NoMemory;
use std::alloc::Global;

/// The successors of each block by their numbers. A label that no block has counts as the entry.
pub fn rows_of(alloc: Global, blocks: &[Block]) -> Result<Rows, NoMemory>
    requires { length blocks.now < 4294967296 }
    ensures { IfOk result (λ made. made ≡ rows blocks.now) }
{
    let mut labels = Labels::of(alloc, blocks)?;
    let mut ends = Vec::with_capacity(alloc, blocks.len())?;
    let mut targets = Vec::new(alloc);
    for block in blocks {
        let number = ends.len();
        push_targets(alloc, &mut labels, number, &block.term, &mut targets)?;
        ends.push(targets.len())?;
    }
    Ok(Rows::of(ends, targets))
}

// Appends the successors of the terminator of a block.
fn push_targets(
    alloc: Global,
    labels: &mut Labels<'_>,
    block: usize,
    term: &Term,
    targets: &mut Vec<u32>,
) -> Result<(), NoMemory>
    ensures pushed { OnOk result (targets.new.items ≡ targets.old.items ++ places_in labels.old.blocks.now (successors term.now)) }
    ensures same { labels.new.blocks ≡ labels.old.blocks }
{
    match term {
        Term::Br { to } => push_target(alloc, labels, block, to, targets),
        Term::CondBr { yes, no, .. } => {
            push_target(alloc, labels, block, yes, targets)?;
            push_target(alloc, labels, block, no, targets)
        }
        Term::Switch { default, cases, .. } => {
            push_target(alloc, labels, block, default, targets)?;
            push_cases(alloc, labels, block, cases.as_slice(), targets)
        }
        Term::Ret { .. } | Term::Unreachable => Ok(()),
    }
}

fn push_cases(
    alloc: Global,
    labels: &mut Labels<'_>,
    block: usize,
    cases: &[(u64, Name)],
    targets: &mut Vec<u32>,
) -> Result<(), NoMemory>
    ensures pushed { OnOk result (targets.new.items ≡ targets.old.items ++ places_in labels.old.blocks.now (map (λ c. c.1) cases.now)) }
    ensures same { labels.new.blocks ≡ labels.old.blocks }
{
    for (_, to) in cases {
        push_target(alloc, labels, block, to, targets)?;
    }
    Ok(())
}

fn push_target(
    alloc: Global,
    labels: &mut Labels<'_>,
    block: usize,
    label: &Name,
    targets: &mut Vec<u32>,
) -> Result<(), NoMemory>
    ensures pushed { OnOk result (targets.new.items ≡ targets.old.items ++ place_in labels.old.blocks.now label.now ∷ []) }
    ensures same { labels.new.blocks ≡ labels.old.blocks }
{
    let place = labels.place_of(alloc, block, targets.as_slice(), label)?;
    targets.push(place)?;
    Ok(())
}
