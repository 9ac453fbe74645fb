// Rule 10: whether a phi has an entry for each successor position that names its block.
ghost use Rattle.std.specs.Prelude.{◌≡◌, ◌<◌, ◌&&◌, not, length, map, Some, slice_get, unwrap_or, IfOk};
ghost use Rattle.std.specs.List.{list_all};
ghost use Rattle.std.specs.Option.{option_and_then, option_copied};
ghost use Rattle.check_flow.specs.LookUps as look;
ghost use Rattle.check_flow.specs.Phis as spec;
ghost use Rattle.ir_rules.specs.Finding.{FindsNames, IsNamed};
ghost use Rattle.ir_rules.specs.Parts.{function_places};
ghost use Rattle.ir_rules.specs.PhiEntries as rule;
ghost use Rattle.ir_tree.specs.FunctionNames.{IsIndexOf};
ghost use Rattle.ir_tree.specs.Names.{Indexes, first_place};
ghost use Rattle.ir_tree.specs.Phis.{entries_of, is_phi};
ghost use Rattle.ir_tree.specs.declared.types.Block.{Block};
ghost use Rattle.spec_lists.specs.Each.{each, first_of};

use crate::arrivals::arrivals_of;
use crate::names::block_of;
use crate::place::place;
use crate::rising::rises;
use ir_rules::{Place, look_ups_tell};
use ir_tree::{Block, Function, FunctionIndex, Index, Instr, Name, Operand};
use pgo_base::NoMemory;
use std::alloc::Global;

/// The first phi whose entries are not those that its block needs.
pub(crate) fn first_unmatched(
    alloc: Global,
    known: &FunctionIndex,
    k: u32,
    f: &Function,
) -> Result<Option<Place>, NoMemory>
    requires known { IsIndexOf known.now f.now }
    requires named { IsNamed f.now }
    requires few { length f.now.blocks < 4294967296 }
    ensures { IfOk result (λ found. found ≡ first_of (function_places rule.phi_entries k f.now)) }
{
    look_ups_tell();
    unmatched_if_any(alloc, known, k, f)
}

// The ways between blocks are gathered only for phis.
fn unmatched_if_any(
    alloc: Global,
    known: &FunctionIndex,
    k: u32,
    f: &Function,
) -> Result<Option<Place>, NoMemory>
    requires known { IsIndexOf known.now f.now }
    requires finds { FindsNames f.now }
    requires few { length f.now.blocks < 4294967296 }
    ensures { IfOk result (λ found. found ≡ first_of (each (spec.unmatched_places f.now.blocks k) 0 f.now.blocks)) }
{
    let blocks = f.blocks.as_slice();
    if are_without_phis(blocks) {
        return Ok(None);
    }
    unmatched_in(alloc, known, k, f)
}

#[tactic(auto, using(spec_lists::proofs::Each::each_dropped, crate::proofs::Firsts::found_plain, crate::proofs::Firsts::over_plain))]
fn unmatched_in(
    alloc: Global,
    known: &FunctionIndex,
    k: u32,
    f: &Function,
) -> Result<Option<Place>, NoMemory>
    requires known { IsIndexOf known.now f.now }
    requires finds { FindsNames f.now }
    requires few { length f.now.blocks < 4294967296 }
    ensures { IfOk result (λ found. found ≡ first_of (each (spec.unmatched_places f.now.blocks k) 0 f.now.blocks)) }
{
    let blocks = f.blocks.as_slice();
    let arrivals = arrivals_of(alloc, known, blocks)?;
    for (b, block) in blocks.iter().enumerate() {
        match unmatched_at(alloc, known, k, f, b, block, arrivals[b].as_slice())? {
            Some(at) => return Ok(Some(at)),
            None => {}
        }
    }
    Ok(None)
}

fn are_without_phis(blocks: &[Block]) -> bool
    ensures { result ≡ spec.are_without_phis blocks.now }
{
    blocks
        .iter()
        .all(|block| is_without_phis(block.instrs.as_slice()))
}

fn is_without_phis(instrs: &[Instr]) -> bool
    ensures { result ≡ list_all (λ x. not (is_phi x)) instrs.now }
{
    instrs.iter().all(|x| !x.is_phi())
}

#[tactic(auto, using(spec_lists::proofs::Each::each_dropped))]
fn unmatched_at(
    alloc: Global,
    known: &FunctionIndex,
    k: u32,
    f: &Function,
    b: usize,
    block: &Block,
    from: &[u64],
) -> Result<Option<Place>, NoMemory>
    requires known { IsIndexOf known.now f.now }
    requires finds { FindsNames f.now }
    requires few { b < 4294967296 }
    requires here { slice_get f.now.blocks b ≡ Some block.now }
    requires from { from.now ≡ spec.arrivals (look.block_of known.now) b f.now.blocks }
    ensures { IfOk result (λ found. found ≡ first_of (spec.unmatched_places f.now.blocks k b block.now)) }
{
    for (i, instr) in block.instrs.as_slice().iter().enumerate() {
        if !is_matched(alloc, known, f, b, block, from, instr)? {
            return Ok(Some(place(k, b, i)));
        }
    }
    Ok(None)
}

// Whether the entries of a phi in block b name the blocks from which it is entered, one for each successor position, and
// have one value for each block. `from` has the numbers of these blocks.
fn is_matched(
    alloc: Global,
    known: &FunctionIndex,
    f: &Function,
    b: usize,
    block: &Block,
    from: &[u64],
    instr: &Instr,
) -> Result<bool, NoMemory>
    requires known { IsIndexOf known.now f.now }
    requires finds { FindsNames f.now }
    requires here { slice_get f.now.blocks b ≡ Some block.now }
    requires from { from.now ≡ spec.arrivals (look.block_of known.now) b f.now.blocks }
    ensures { IfOk result (λ matched. matched ≡ rule.are_matched_if_any f.now.blocks block.now.label (entries_of instr.now)) }
{
    match instr.entries() {
        Some(entries) => are_matched(alloc, known, f, b, block, from, entries),
        None => Ok(true),
    }
}

#[tactic(auto, using(crate::proofs::Matches::matched_if, crate::proofs::Matches::matched_not))]
fn are_matched(
    alloc: Global,
    known: &FunctionIndex,
    f: &Function,
    b: usize,
    block: &Block,
    from: &[u64],
    entries: &[(Operand, Name)],
) -> Result<bool, NoMemory>
    requires known { IsIndexOf known.now f.now }
    requires finds { FindsNames f.now }
    requires here { slice_get f.now.blocks b ≡ Some block.now }
    requires from { from.now ≡ spec.arrivals (look.block_of known.now) b f.now.blocks }
    ensures { IfOk result (λ matched. matched ≡ rule.are_matched f.now.blocks block.now.label entries.now) }
{
    if !are_as_many(alloc, known, f, b, block, from, entries)? {
        return Ok(false);
    }
    // Where each block is named once no values are compared.
    if rises(from) {
        return Ok(true);
    }
    have_one_value(alloc, entries)
}

// Whether each block is named by as many entries as it has successor positions that name block b. Both lists of numbers
// are compared in rising order.
fn are_as_many(
    alloc: Global,
    known: &FunctionIndex,
    f: &Function,
    b: usize,
    block: &Block,
    from: &[u64],
    entries: &[(Operand, Name)],
) -> Result<bool, NoMemory>
    requires known { IsIndexOf known.now f.now }
    requires finds { FindsNames f.now }
    requires here { slice_get f.now.blocks b ≡ Some block.now }
    requires from { from.now ≡ spec.arrivals (look.block_of known.now) b f.now.blocks }
    ensures { IfOk result (λ many. many ≡ spec.are_as_many_all f.now.blocks block.now.label entries.now) }
{
    let count = f.blocks.as_slice().len() as u64;
    let mut numbers = numbers_of(alloc, known, count, entries)?;
    numbers.sort_unstable();
    Ok(numbers.as_slice() == from)
}

// The numbers of the blocks that the entries name, in the order of the entries; of an entry that names none, `count`.
fn numbers_of(
    alloc: Global,
    known: &FunctionIndex,
    count: u64,
    entries: &[(Operand, Name)],
) -> Result<Vec<u64>, NoMemory>
    ensures { IfOk result (λ numbers. numbers.items ≡ spec.numbers_of (look.block_of known.now) count entries.now) }
{
    let mut numbers = Vec::with_capacity(alloc, entries.len())?;
    for entry in entries {
        numbers.push(number_of(known, count, &entry.1))?;
    }
    Ok(numbers)
}

fn number_of(known: &FunctionIndex, count: u64, label: &Name) -> u64
    ensures { result ≡ unwrap_or (look.block_of known.now label.now) count }
{
    match block_of(known, label) {
        Some(b) => b as u64,
        None => count,
    }
}

// Whether entries that name one block have equal values.
fn have_one_value(alloc: Global, entries: &[(Operand, Name)]) -> Result<bool, NoMemory>
    ensures { IfOk result (λ one. one ≡ rule.have_one_value entries.now) }
{
    let labels = labels_of(alloc, entries)?;
    Ok(have_first_values(&labels, entries))
}

fn labels_of(alloc: Global, entries: &[(Operand, Name)]) -> Result<Index, NoMemory>
    ensures { IfOk result (λ labels. Indexes labels (map (λ e. e.1) entries.now)) }
{
    let mut labels = Index::new(alloc);
    for (i, entry) in entries.iter().enumerate() {
        labels.add(alloc, entry.1.bytes(), i)?;
    }
    Ok(labels)
}

fn have_first_values(labels: &Index, entries: &[(Operand, Name)]) -> bool
    ensures { result ≡ list_all (λ e. rule.has_value e.0 (option_and_then (slice_get entries.now) (first_place labels.now e.1))) entries.now }
{
    entries.iter().all(|entry| has_first_value(labels, entries, &entry.0, &entry.1))
}

fn has_first_value(
    labels: &Index,
    entries: &[(Operand, Name)],
    value: &Operand,
    label: &Name,
) -> bool
    ensures { result ≡ rule.has_value value.now (option_and_then (slice_get entries.now) (first_place labels.now label.now)) }
{
    has_value(value, entry_at(entries, labels.find(label.bytes())))
}

fn entry_at<'a>(entries: &'a [(Operand, Name)], place: Option<usize>) -> Option<&'a (Operand, Name)>
    ensures { option_copied result ≡ option_and_then (slice_get entries.now) place }
{
    match place {
        Some(i) => entries.get(i),
        None => None,
    }
}

fn has_value(value: &Operand, found: Option<&(Operand, Name)>) -> bool
    ensures { result ≡ rule.has_value value.now (option_copied found.entry) }
{
    match found {
        Some(entry) => value.is_same(&entry.0),
        None => false,
    }
}
