// The places of calls through a local and of selects.
ghost use Rattle.std.specs.Prelude.{◌≡◌, ℕ, ◌<◌, ◌++◌, [], ◌∷◌, length, IfOk, OnOk, Some, if◌then◌else◌, slice_get};
ghost use Rattle.cfg_edges.specs.Sought.{is_sought};
ghost use Rattle.ir_tree.specs.Graphs as spec;
ghost use Rattle.ir_tree.specs.Graphs.{places_from, places_of};

use ir_tree::{Block, Instr, Operand};
use pgo_base::NoMemory;
use std::alloc::Global;

// The instructions whose places are listed: calls whose callee is a parameter or result, or selects.
#[derive(Clone, Copy)]
pub(crate) enum Sought {
    Sites,
    Selects,
}

// The places of these instructions in some of the blocks, each as a block and an item of it.
pub(crate) fn places(
    alloc: Global,
    blocks: &[Block],
    reachable: &[u32],
    sought: Sought,
) -> Result<Vec<(u32, u64)>, NoMemory>
    requires { (k b : ℕ) → slice_get reachable.now k ≡ Some b → b < length blocks.now }
    ensures { IfOk result (λ found. found.items ≡ places_of (is_sought sought) blocks.now reachable.now) }
{
    let mut found = Vec::new(alloc);
    for number in reachable {
        let block = &blocks[*number as usize];
        push_places(*number, block.instrs.as_slice(), sought, &mut found)?;
    }
    Ok(found)
}

fn push_places(
    number: u32,
    instrs: &[Instr],
    sought: Sought,
    found: &mut Vec<(u32, u64)>,
) -> Result<(), NoMemory>
    ensures { OnOk result (found.new.items ≡ found.old.items ++ places_from (is_sought sought) number 0 instrs.now) }
{
    for (item, instr) in instrs.iter().enumerate() {
        push_if(is_one(sought, instr), (number, item as u64), found)?;
    }
    Ok(())
}

fn push_if(holds: bool, place: (u32, u64), found: &mut Vec<(u32, u64)>) -> Result<(), NoMemory>
    ensures { OnOk result (found.new.items ≡ found.old.items ++ (if holds then place ∷ [] else [])) }
{
    if holds {
        found.push(place)?;
    }
    Ok(())
}

fn is_one(sought: Sought, instr: &Instr) -> bool
    ensures { result ≡ is_sought sought instr.now }
{
    match sought {
        Sought::Sites => is_site(instr),
        Sought::Selects => matches!(instr, Instr::Select { .. }),
    }
}

fn is_site(instr: &Instr) -> bool
    ensures { result ≡ spec.is_site instr.now }
{
    match instr {
        Instr::Call { callee, .. } => matches!(callee, Operand::Local(_)),
        _ => false,
    }
}
