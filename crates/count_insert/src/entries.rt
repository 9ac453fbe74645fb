// The entries of phis: of each phi the first entry for the block before a new one names the new one.
ghost use Rattle.std.specs.Prelude.{◌≡◌, OnOk, map};
ghost use Rattle.count_insert.specs.Lists.{by_queue, queue_at};
ghost use Rattle.count_plan.specs.Ways.{renamed, renamed_phi};
ghost use Rattle.ir_tree.specs.Phis.{rename_first};

use crate::queues::Queues;
use ir_tree::{Instr, Name, Operand};
use pgo_base::NoMemory;
use std::alloc::Global;

// So few renamings are looked for one by one.
const FEW: usize = 4;

// The first entry for a label names another one.
fn rename_first(
    alloc: Global,
    label: &Name,
    other: &Name,
    entries: &mut [(Operand, Name)],
) -> Result<(), NoMemory>
    ensures { OnOk result (entries.new ≡ rename_first label.now other.now entries.old) }
{
    for entry in entries.iter_mut() {
        if label == &entry.1 {
            entry.1 = other.copy(alloc)?;
            return Ok(());
        }
    }
    Ok(())
}

fn rename_in_turn(
    alloc: Global,
    news: &[(Name, Name)],
    entries: &mut [(Operand, Name)],
) -> Result<(), NoMemory>
    ensures { OnOk result (entries.new ≡ renamed news.now entries.old) }
{
    for (label, new) in news {
        rename_first(alloc, label, new, entries)?;
    }
    Ok(())
}

fn rename_by_queue(queues: &mut Queues, entries: &mut [(Operand, Name)]) -> Result<(), NoMemory>
    ensures { OnOk result (entries.new ≡ by_queue (queue_at queues.old) entries.old) }
{
    for entry in entries.iter_mut() {
        queues.rename(&mut entry.1)?;
    }
    Ok(())
}

// Each entry is looked up once, unless a new label is one that is renamed: then the renamings are made in turn.
fn rename_many(
    alloc: Global,
    news: &[(Name, Name)],
    entries: &mut [(Operand, Name)],
) -> Result<(), NoMemory>
    ensures { OnOk result (entries.new ≡ renamed news.now entries.old) }
{
    let mut queues = Queues::of(alloc, news)?;
    if queues.are_away(news) {
        rename_by_queue(&mut queues, entries)?;
        return Ok(());
    }
    rename_in_turn(alloc, news, entries)
}

fn rename_entries(
    alloc: Global,
    news: &[(Name, Name)],
    entries: &mut [(Operand, Name)],
) -> Result<(), NoMemory>
    ensures { OnOk result (entries.new ≡ renamed news.now entries.old) }
{
    if news.len() <= FEW {
        rename_in_turn(alloc, news, entries)
    } else {
        rename_many(alloc, news, entries)
    }
}

fn rename_phi(alloc: Global, news: &[(Name, Name)], instr: &mut Instr) -> Result<(), NoMemory>
    ensures { OnOk result (instr.new ≡ renamed_phi news.now instr.old) }
{
    match instr {
        Instr::Phi { entries, .. } => rename_entries(alloc, news, entries.as_mut_slice()),
        Instr::Binary { .. }
        | Instr::Compare { .. }
        | Instr::Convert { .. }
        | Instr::Freeze { .. }
        | Instr::Select { .. }
        | Instr::Alloca { .. }
        | Instr::Load { .. }
        | Instr::Store { .. }
        | Instr::Gep { .. }
        | Instr::Call { .. }
        | Instr::Count { .. } => Ok(()),
    }
}

// Renames the entries of the phis at the head of a block.
pub(crate) fn rename_phis(
    alloc: Global,
    news: &[(Name, Name)],
    phis: &mut [Instr],
) -> Result<(), NoMemory>
    ensures { OnOk result (phis.new ≡ map (renamed_phi news.now) phis.old) }
{
    for phi in phis.iter_mut() {
        rename_phi(alloc, news, phi)?;
    }
    Ok(())
}
