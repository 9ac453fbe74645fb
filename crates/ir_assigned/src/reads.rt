// The reads of a function that only its walks decide: those of a result of another block, or of one that stands later in the block.
ghost use Rattle.std.specs.Prelude.{◌≡◌, ◌++◌, ◌<◌, length, option_map, IfSome, OnOk};
ghost use Rattle.ir_assigned.specs.Reads as spec;
ghost use Rattle.ir_rules.specs.Scopes.{term_reads};
ghost use Rattle.ir_tree.specs.FunctionNames.{indexed};
ghost use Rattle.ir_tree.specs.Operands.{listed, used};

use ir_tree::{Block, FunctionIndex, Instr, Local, LocalKind, Name, Operand, Term, Ty};
use pgo_base::NoMemory;

/// A read of what block `giver` gives, in block `at`, by an item of a block.
#[derive(Clone, Copy)]
pub(crate) struct Read {
    pub(crate) giver: u32,
    pub(crate) at: u32,
    pub(crate) block: usize,
    pub(crate) item: usize,
}

/// Appends the reads of all blocks.
pub(crate) fn push_blocks(
    known: &FunctionIndex,
    blocks: &[Block],
    reads: &mut Vec<Read>,
) -> Result<(), NoMemory>
    requires known { spec.HasFewBlocks (indexed known.now) }
    requires few { length blocks.now < 4294967296 }
    ensures { OnOk result (reads.new.items ≡ reads.old.items ++ spec.all_reads (indexed known.now) blocks.now) }
{
    for (b, block) in blocks.iter().enumerate() {
        push_block(known, b, block, reads)?;
    }
    Ok(())
}

fn push_block(
    known: &FunctionIndex,
    b: usize,
    block: &Block,
    reads: &mut Vec<Read>,
) -> Result<(), NoMemory>
    requires known { spec.HasFewBlocks (indexed known.now) }
    requires block { b < 4294967296 }
    ensures { OnOk result (reads.new.items ≡ reads.old.items ++ spec.block_reads (indexed known.now) b block.now) }
{
    let instrs = block.instrs.as_slice();
    push_instrs(known, b, instrs, reads)?;
    push_term(known, b, instrs.len(), &block.term, reads)
}

fn push_instrs(
    known: &FunctionIndex,
    b: usize,
    instrs: &[Instr],
    reads: &mut Vec<Read>,
) -> Result<(), NoMemory>
    requires known { spec.HasFewBlocks (indexed known.now) }
    requires block { b < 4294967296 }
    ensures { OnOk result (reads.new.items ≡ reads.old.items ++ spec.instrs_reads (indexed known.now) b instrs.now) }
{
    for (i, instr) in instrs.iter().enumerate() {
        push_instr(known, b, i, instr, reads)?;
    }
    Ok(())
}

fn push_instr(
    known: &FunctionIndex,
    b: usize,
    i: usize,
    instr: &Instr,
    reads: &mut Vec<Read>,
) -> Result<(), NoMemory>
    requires known { spec.HasFewBlocks (indexed known.now) }
    requires block { b < 4294967296 }
    ensures { OnOk result (reads.new.items ≡ reads.old.items ++ spec.instr_reads (indexed known.now) b i instr.now) }
{
    match instr.entries() {
        Some(entries) => push_entries(known, b, i, entries, reads),
        None => push_operands(known, b, i, instr, reads),
    }
}

fn push_operands(
    known: &FunctionIndex,
    b: usize,
    i: usize,
    instr: &Instr,
    reads: &mut Vec<Read>,
) -> Result<(), NoMemory>
    requires known { spec.HasFewBlocks (indexed known.now) }
    requires block { b < 4294967296 }
    ensures { OnOk result (reads.new.items ≡ reads.old.items ++ spec.operand_reads (indexed known.now) b i instr.now) }
{
    for place in 0..instr.operand_count() {
        push_found(known, b, i, instr.operand(place), reads)?;
    }
    Ok(())
}

fn push_term(
    known: &FunctionIndex,
    b: usize,
    i: usize,
    term: &Term,
    reads: &mut Vec<Read>,
) -> Result<(), NoMemory>
    requires known { spec.HasFewBlocks (indexed known.now) }
    requires block { b < 4294967296 }
    ensures { OnOk result (reads.new.items ≡ reads.old.items ++ spec.uses_reads (indexed known.now) b i (term_reads term.now)) }
{
    push_found(known, b, i, term.operand(), reads)
}

fn push_found(
    known: &FunctionIndex,
    b: usize,
    i: usize,
    found: Option<(Ty, &Operand)>,
    reads: &mut Vec<Read>,
) -> Result<(), NoMemory>
    requires known { spec.HasFewBlocks (indexed known.now) }
    requires block { b < 4294967296 }
    ensures { OnOk result (reads.new.items ≡ reads.old.items ++ spec.uses_reads (indexed known.now) b i (listed (option_map used found.entry))) }
{
    match found {
        Some((_, operand)) => push_operand(known, b, i, operand, reads),
        None => Ok(()),
    }
}

fn push_operand(
    known: &FunctionIndex,
    b: usize,
    i: usize,
    operand: &Operand,
    reads: &mut Vec<Read>,
) -> Result<(), NoMemory>
    requires known { spec.HasFewBlocks (indexed known.now) }
    requires block { b < 4294967296 }
    ensures { OnOk result (reads.new.items ≡ reads.old.items ++ spec.operand_read (indexed known.now) b i operand.now) }
{
    match operand {
        Operand::Local(name) => push_local(b, i, known.find(name.bytes()), reads),
        Operand::Int(_) | Operand::Null | Operand::Global(_) => Ok(()),
    }
}

// A parameter is held everywhere, and a result behind its instruction.
fn push_local(
    b: usize,
    i: usize,
    found: Option<Local>,
    reads: &mut Vec<Read>,
) -> Result<(), NoMemory>
    requires found { IfSome found (λ l. l.block < 4294967296) }
    requires block { b < 4294967296 }
    ensures { OnOk result (reads.new.items ≡ reads.old.items ++ spec.local_read b i found) }
{
    let Some(local) = found else {
        return Ok(());
    };
    match local.kind {
        LocalKind::Param(_) | LocalKind::Label => Ok(()),
        LocalKind::Result(_) => {
            if local.block == b && local.item < i {
                return Ok(());
            }
            reads.push(Read {
                giver: local.block as u32,
                at: b as u32,
                block: b,
                item: i,
            })?;
            Ok(())
        }
    }
}

fn push_entries(
    known: &FunctionIndex,
    b: usize,
    i: usize,
    entries: &[(Operand, Name)],
    reads: &mut Vec<Read>,
) -> Result<(), NoMemory>
    requires { spec.HasFewBlocks (indexed known.now) }
    ensures { OnOk result (reads.new.items ≡ reads.old.items ++ spec.entries_reads (indexed known.now) b i entries.now) }
{
    for entry in entries {
        push_entry(known, b, i, &entry.0, &entry.1, reads)?;
    }
    Ok(())
}

fn push_entry(
    known: &FunctionIndex,
    b: usize,
    i: usize,
    value: &Operand,
    label: &Name,
    reads: &mut Vec<Read>,
) -> Result<(), NoMemory>
    requires { spec.HasFewBlocks (indexed known.now) }
    ensures { OnOk result (reads.new.items ≡ reads.old.items ++ spec.entry_read (indexed known.now) b i (value.now, label.now)) }
{
    match value {
        Operand::Local(name) => {
            push_value(
                b,
                i,
                known.find(label.bytes()),
                known.find(name.bytes()),
                reads,
            )
        }
        Operand::Int(_) | Operand::Null | Operand::Global(_) => Ok(()),
    }
}

// A value of a phi is read at the end of the block that its entry names.
fn push_value(
    b: usize,
    i: usize,
    from: Option<Local>,
    found: Option<Local>,
    reads: &mut Vec<Read>,
) -> Result<(), NoMemory>
    requires from { IfSome from (λ l. l.block < 4294967296) }
    requires found { IfSome found (λ l. l.block < 4294967296) }
    ensures { OnOk result (reads.new.items ≡ reads.old.items ++ spec.value_read b i from found) }
{
    let (Some(label), Some(local)) = (from, found) else {
        return Ok(());
    };
    match local.kind {
        LocalKind::Param(_) | LocalKind::Label => Ok(()),
        LocalKind::Result(_) => {
            if local.block != label.block {
                reads.push(Read {
                    giver: local.block as u32,
                    at: label.block as u32,
                    block: b,
                    item: i,
                })?;
            }
            Ok(())
        }
    }
}
