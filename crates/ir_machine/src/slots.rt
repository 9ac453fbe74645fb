// A number for each edge of each function, so that the walks of a run can be counted.
ghost use Rattle.std.specs.Prelude.{◌≡◌, ◌+◌, sum_by, slice_get, IfOk};
ghost use Rattle.ir_tree.specs.Functions.{numbered};
ghost use Rattle.ir_tree.specs.Successors.{ways_out};
ghost use Rattle.ir_tree.specs.Edges.{edges_in};
ghost use Rattle.ir_machine.specs.Slots.{block_slots, function_slots, all_slots, slot_in, slot_at, entry_or};

use ir_tree::{Block, Function, Seq, is_profile_name};
use pgo_base::NoMemory;
use std::alloc::Global;

/// The slots of a function: that of its entry, and the first one of each block. A declared function
/// has none; its `entry` is the first slot behind it.
#[derive(Debug, Drop)]
pub struct FunctionSlots {
    pub entry: u32,
    pub blocks: Seq<u32>,
}

/// The slots of all functions, and how many there are.
#[derive(Debug, Drop)]
pub struct Numbering {
    pub functions: Seq<FunctionSlots>,
    pub total: u32,
}

/// The number behind so many slots.
fn behind(next: u32, slots: usize) -> Result<u32, NoMemory>
    ensures { IfOk result (λ n. n ≡ next + slots) }
{
    match u32::try_from(slots) {
        Ok(slots) => match next.checked_add(slots) {
            Some(sum) => Ok(sum),
            None => Err(NoMemory),
        },
        Err(_) => Err(NoMemory),
    }
}

/// Numbers the edges out of blocks from `next` on.
fn number_blocks(alloc: Global, blocks: &[Block], next: &mut u32) -> Result<Vec<u32>, NoMemory>
    ensures { IfOk result (λ slots. (slots.items ≡ block_slots next.old blocks.now) × (next.new ≡ next.old + sum_by ways_out blocks.now)) }
{
    let mut slots = Vec::with_capacity(alloc, blocks.len())?;
    for block in blocks {
        slots.push(*next)?;
        *next = behind(*next, block.ways_out())?;
    }
    Ok(slots)
}

/// Numbers the edges of a function from `next` on.
fn number_function(
    alloc: Global,
    function: &Function,
    next: &mut u32,
) -> Result<FunctionSlots, NoMemory>
    ensures { IfOk result (λ slots. (slots ≡ function_slots next.old function.now) × (next.new ≡ next.old + edges_in function.now)) }
{
    let entry = *next;
    if function.is_declared() {
        return Ok(FunctionSlots {
            entry,
            blocks: Seq::of(Vec::new(alloc)),
        });
    }
    *next = behind(entry, 1)?;
    let blocks = number_blocks(alloc, function.blocks.as_slice(), next)?;
    Ok(FunctionSlots {
        entry,
        blocks: Seq::of(blocks),
    })
}

/// Numbers the edges of the functions that have a number, from 0 on.
pub fn number_functions(alloc: Global, functions: &[Function]) -> Result<Numbering, NoMemory>
    ensures { IfOk result (λ n. (n.functions ≡ all_slots 0 (numbered functions.now)) × (n.total ≡ sum_by edges_in (numbered functions.now))) }
{
    let mut next = 0;
    let mut slots = Vec::new(alloc);
    for function in functions {
        if !is_profile_name(function.name.bytes()) {
            slots.push(number_function(alloc, function, &mut next)?)?;
        }
    }
    Ok(Numbering {
        functions: Seq::of(slots),
        total: next,
    })
}

/// The slot of a function's entry, and `total` where there is no such function.
pub fn entry_in(slots: &[FunctionSlots], function: usize, total: u32) -> u32
    ensures { result ≡ entry_or (slice_get slots.now function) total }
{
    match slots.get(function) {
        Some(slots) => slots.entry,
        None => total,
    }
}

/// The slot of an edge, 0 where there is no such edge.
pub fn slot_in_all(
    slots: &[FunctionSlots],
    function: usize,
    block: Option<u32>,
    position: u32,
) -> usize
    ensures { result ≡ slot_at (slice_get slots.now function) block position }
{
    match slots.get(function) {
        Some(slots) => slot_of_edge(slots, block, position),
        None => 0,
    }
}

/// The slot of an edge of a function: its entry, or the one out of the block at this place by the
/// successor at this position. 0 where there is no such block.
fn slot_of_edge(slots: &FunctionSlots, block: Option<u32>, position: u32) -> usize
    ensures { result ≡ slot_in slots.now block position }
{
    match block {
        Some(place) => match slots.blocks.as_slice().get(place as usize) {
            Some(start) => *start as usize + position as usize,
            None => 0,
        },
        None => slots.entry as usize,
    }
}
