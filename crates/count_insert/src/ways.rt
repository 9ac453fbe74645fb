// Where terminators lead, and the new blocks on the ways out of a block.
ghost use Rattle.std.specs.Prelude.{◌≡◌, ℕ, ◌++◌, List, Some, slice_get, IfOk, OnOk};
ghost use Rattle.std.specs.Option.{option_copied};
ghost use Rattle.count_plan.specs.Counted.{new_blocks, put_on};
ghost use Rattle.count_plan.specs.Ways as spec;
ghost use Rattle.count_plan.specs.Ways.{led_cases, led_to, new_at};
ghost use Rattle.ir_tree.specs.Successors.{successors};

use crate::calls::push_increments;
use count_plan::{BlockPlan, FunctionPlan, NewBlock};
use ir_tree::{Block, Name, Seq, Term};
use pgo_base::NoMemory;
use std::alloc::Global;

// The new block on the way out by the successor at a position.
pub(crate) fn new_at(plan: &BlockPlan, position: usize) -> Option<&NewBlock>
    ensures { option_copied result ≡ new_at plan.now position }
{
    match plan.edges.as_slice().get(position) {
        Some(Some(new)) => Some(new),
        Some(None) | None => None,
    }
}

fn lead_to(
    alloc: Global,
    plan: &BlockPlan,
    position: usize,
    label: &mut Name,
) -> Result<(), NoMemory>
    ensures { OnOk result (label.new ≡ led_to (new_at plan.now position) label.old) }
{
    if let Some(new) = new_at(plan, position) {
        *label = new.label.copy(alloc)?;
    }
    Ok(())
}

fn lead_cases(alloc: Global, plan: &BlockPlan, cases: &mut [(u64, Name)]) -> Result<(), NoMemory>
    ensures { OnOk result (cases.new ≡ led_cases plan.now 1 cases.old) }
{
    for (place, case) in cases.iter_mut().enumerate() {
        lead_to(alloc, plan, place + 1, &mut case.1)?;
    }
    Ok(())
}

// Lets a terminator lead to the new blocks on its ways out.
pub(crate) fn lead(alloc: Global, plan: &BlockPlan, term: &mut Term) -> Result<(), NoMemory>
    ensures { OnOk result (term.new ≡ spec.led plan.now term.old) }
{
    match term {
        Term::Br { to } => lead_to(alloc, plan, 0, to),
        Term::CondBr { yes, no, .. } => {
            lead_to(alloc, plan, 0, yes)?;
            lead_to(alloc, plan, 1, no)
        }
        Term::Switch { default, cases, .. } => {
            lead_to(alloc, plan, 0, default)?;
            lead_cases(alloc, plan, cases.as_mut_slice())
        }
        Term::Ret { .. } | Term::Unreachable => Ok(()),
    }
}

// Appends the new block on a way to this label, where there is one.
fn push_new(
    alloc: Global,
    unit: &FunctionPlan,
    to: &Name,
    new: Option<&NewBlock>,
    made: &mut Vec<Block>,
) -> Result<(), NoMemory>
    ensures { OnOk result (made.new.items ≡ made.old.items ++ put_on unit.now to.now (option_copied new.entry)) }
{
    if let Some(new) = new {
        let mut instrs = Vec::new(alloc);
        push_increments(alloc, unit, new.counter, &mut instrs)?;
        made.push(Block {
            label: new.label.copy(alloc)?,
            instrs: Seq::of(instrs),
            term: Term::Br {
                to: to.copy(alloc)?,
            },
        })?;
    }
    Ok(())
}

// Appends the new block on the way out by the successor at a position.
fn push_way(
    alloc: Global,
    unit: &FunctionPlan,
    plan: &BlockPlan,
    term: &Term,
    position: usize,
    made: &mut Vec<Block>,
) -> Result<(), NoMemory>
    ensures { (to : List ℕ) → slice_get (successors term.now) position ≡ Some to → OnOk result (made.new.items ≡ made.old.items ++ put_on unit.now to (new_at plan.now position)) }
{
    match term.successor(position) {
        Some(to) => push_new(alloc, unit, to, new_at(plan, position), made),
        None => Ok(()),
    }
}

// The new blocks on the ways out of a block, in order of position.
pub(crate) fn new_blocks(
    alloc: Global,
    unit: &FunctionPlan,
    plan: &BlockPlan,
    block: &Block,
) -> Result<Vec<Block>, NoMemory>
    ensures { IfOk result (λ made. made.items ≡ new_blocks unit.now plan.now block.now) }
{
    let mut made = Vec::new(alloc);
    for position in 0..block.term.successor_count() {
        push_way(alloc, unit, plan, &block.term, position, &mut made)?;
    }
    Ok(made)
}
