// The blocks from which each block of a function is entered.
ghost use Rattle.std.specs.Prelude.{◌≡◌, ◌==◌, [], ◌∷◌, map, replicate, IfOk, OnOk};
ghost use Rattle.check_flow.specs.LookUps.{block_of};
ghost use Rattle.check_flow.specs.Phis as spec;
ghost use Rattle.ir_tree.specs.Successors.{successors};
ghost use Rattle.spec_lists.specs.Each.{only_if};

use crate::names::block_of;
use ir_tree::{Block, FunctionIndex, Name, Term};
use pgo_base::NoMemory;
use std::alloc::Global;

/// For each block the numbers of the blocks whose successor positions name it, one for each position, rising.
pub(crate) fn arrivals_of(
    alloc: Global,
    known: &FunctionIndex,
    blocks: &[Block],
) -> Result<Vec<Vec<u64>>, NoMemory>
    ensures { IfOk result (λ lists. spec.EntersAll (block_of known.now) blocks.now lists) }
{
    let mut lists = empty_lists(alloc, blocks.len())?;
    for (p, block) in blocks.iter().enumerate() {
        add_successors(&mut lists, known, p as u64, &block.term)?;
    }
    Ok(lists)
}

fn empty_lists(alloc: Global, count: usize) -> Result<Vec<Vec<u64>>, NoMemory>
    ensures { IfOk result (λ lists. map (λ v. v.items) lists.items ≡ replicate count []) }
{
    let mut lists = Vec::with_capacity(alloc, count)?;
    for _b in 0..count {
        lists.push(Vec::new(alloc))?;
    }
    Ok(lists)
}

fn add_successors(
    lists: &mut Vec<Vec<u64>>,
    known: &FunctionIndex,
    p: u64,
    term: &Term,
) -> Result<(), NoMemory>
    ensures { OnOk result (spec.Gains lists.old lists.new (λ b. spec.each_arrival (block_of known.now) b p (successors term.now))) }
{
    match term {
        Term::Br { to } => add(lists, known, p, to),
        Term::CondBr { yes, no, .. } => add_both(lists, known, p, yes, no),
        Term::Switch { default, cases, .. } => add_cases(
            lists,
            known,
            p,
            default,
            cases.as_slice(),
        ),
        Term::Ret { .. } | Term::Unreachable => Ok(()),
    }
}

fn add_both(
    lists: &mut Vec<Vec<u64>>,
    known: &FunctionIndex,
    p: u64,
    yes: &Name,
    no: &Name,
) -> Result<(), NoMemory>
    ensures { OnOk result (spec.Gains lists.old lists.new (λ b. spec.each_arrival (block_of known.now) b p (yes.now ∷ no.now ∷ []))) }
{
    add(lists, known, p, yes)?;
    add(lists, known, p, no)?;
    Ok(())
}

fn add_cases(
    lists: &mut Vec<Vec<u64>>,
    known: &FunctionIndex,
    p: u64,
    default: &Name,
    cases: &[(u64, Name)],
) -> Result<(), NoMemory>
    ensures { OnOk result (spec.Gains lists.old lists.new (λ b. spec.each_arrival (block_of known.now) b p (default.now ∷ map (λ c. c.1) cases.now))) }
{
    add(lists, known, p, default)?;
    for case in cases {
        add(lists, known, p, &case.1)?;
    }
    Ok(())
}

// Puts the number of a block behind those from which the block with this label is entered.
fn add(
    lists: &mut Vec<Vec<u64>>,
    known: &FunctionIndex,
    p: u64,
    label: &Name,
) -> Result<(), NoMemory>
    ensures { OnOk result (spec.Gains lists.old lists.new (λ b. only_if (spec.is_at b (block_of known.now label.now)) p)) }
{
    match block_of(known, label) {
        Some(to) => add_to(lists, to, p),
        None => Ok(()),
    }
}

fn add_to(lists: &mut Vec<Vec<u64>>, to: usize, p: u64) -> Result<(), NoMemory>
    ensures { OnOk result (spec.Gains lists.old lists.new (λ b. only_if (to == b) p)) }
{
    if to < lists.len() {
        lists[to].push(p)?;
    }
    Ok(())
}
