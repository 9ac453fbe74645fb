// Which functions have a graph.
ghost use Rattle.std.specs.Prelude.{◌≡◌, ◌+◌, ◌<◌, ◌==◌, true, length, map, max, sum_by, is_some, IfOk};
ghost use Rattle.std.specs.List.{list_all};
ghost use Rattle.ir_tree.specs.Blocks.{labels};
ghost use Rattle.ir_tree.specs.Graphs.{HasGraph};
ghost use Rattle.ir_tree.specs.Names.{Indexes, first_place};
ghost use Rattle.ir_tree.specs.Successors as spec;
ghost use Rattle.ir_tree.specs.Successors.{successors};

use ir_tree::{Block, Function, Index, Name, Term};
use pgo_base::NoMemory;
use std::alloc::Global;

/// Whether a function without instructions has a graph.
pub fn has_graph(alloc: Global, function: &Function) -> Result<bool, NoMemory>
    ensures { IfOk result (λ holds. holds ≡ true → HasGraph function.now) }
{
    let blocks = function.blocks.as_slice();
    let index = index_of(alloc, blocks)?;
    let targets = targets_are_blocks(&index, blocks);
    let small = is_small(blocks);
    let empty = are_empty(blocks);
    let some = 0 < blocks.len();
    Ok(are_all(some, targets, small, empty))
}

fn are_all(one: bool, two: bool, three: bool, four: bool) -> bool
    ensures { result ≡ true → (one ≡ true) × (two ≡ true) × (three ≡ true) × (four ≡ true) }
{
    one && two && three && four
}

fn index_of(alloc: Global, blocks: &[Block]) -> Result<Index, NoMemory>
    ensures { IfOk result (λ index. Indexes index (labels blocks.now)) }
{
    let mut index = Index::new(alloc);
    for (b, block) in blocks.iter().enumerate() {
        index.add(alloc, block.label.bytes(), b)?;
    }
    Ok(index)
}

fn targets_are_blocks(index: &Index, blocks: &[Block]) -> bool
    ensures { result ≡ list_all (λ b. list_all (λ to. is_some (first_place index.now to)) (successors b.term)) blocks.now }
{
    blocks.iter().all(|b| has_targets(index, &b.term))
}

fn has_targets(index: &Index, term: &Term) -> bool
    ensures { result ≡ list_all (λ to. is_some (first_place index.now to)) (successors term.now) }
{
    match term {
        Term::Br { to } => has(index, to),
        Term::CondBr { yes, no, .. } => has(index, yes) && has(index, no),
        Term::Switch { default, cases, .. } => has(index, default)
            && labels_have(index, cases.as_slice()),
        Term::Ret { .. } | Term::Unreachable => true,
    }
}

fn labels_have(index: &Index, cases: &[(u64, Name)]) -> bool
    ensures { result ≡ list_all (λ to. is_some (first_place index.now to)) (map (λ c. c.1) cases.now) }
{
    cases_have(index, cases)
}

fn cases_have(index: &Index, cases: &[(u64, Name)]) -> bool
    ensures { result ≡ list_all (λ c. is_some (first_place index.now c.1)) cases.now }
{
    cases.iter().all(|case| has(index, &case.1))
}

fn has(index: &Index, label: &Name) -> bool
    ensures { result ≡ is_some (first_place index.now label.now) }
{
    index.find(label.bytes()).is_some()
}

fn is_small(blocks: &[Block]) -> bool
    ensures { result ≡ true → 1 + sum_by spec.ways_out blocks.now < 4294967296 }
{
    let mut sum = 1u64;
    for block in blocks {
        let ways = ways_out(&block.term);
        if ways > 4294967295 - sum {
            return false;
        }
        sum += ways;
    }
    true
}

// The number of ways out, where it is below 2^32.
fn ways_out(term: &Term) -> u64
    ensures { result < 4294967296 → result ≡ max 1 (length (successors term.now)) }
{
    match term {
        Term::CondBr { .. } => 2,
        Term::Switch { cases, .. } => (cases.len() as u64).saturating_add(1),
        Term::Br { .. } | Term::Ret { .. } | Term::Unreachable => 1,
    }
}

fn are_empty(blocks: &[Block]) -> bool
    ensures { result ≡ list_all (λ b. length b.instrs == 0) blocks.now }
{
    blocks.iter().all(|b| b.instrs.is_empty())
}
