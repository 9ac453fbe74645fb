// The blocks that labels name, by number.
ghost use Rattle.std.specs.Prelude.{◌≡◌, ◌<◌, [], if◌then◌else◌, true, length, map, IfOk, IfSome};
ghost use Rattle.std.specs.Option.{ForSome};
ghost use Rattle.std.specs.List.Sorted.{IsStrictlyIncreasing};
ghost use Rattle.cfg_edges.specs.Blocks.{HasFewPlaces, HasLabel, HasPlaces, found, label_hash, place_in};
ghost use Rattle.ir_tree.specs.Edges.{labels};
ghost use Rattle.ir_tree.specs.Names.{Indexes};

use ir_tree::{Block, Index, Name};
use pgo_base::NoMemory;
use std::alloc::Global;
use std::hash::{FoldHasher, Hasher};

// The index of the labels of so many blocks leaves the processor's cache, and each look-up costs a wait.
const MANY: usize = 8_192;

/// Finds blocks by their labels. In a function of many blocks a label is first compared with those of a few blocks near
/// by, which costs less than a look-up; the index is made where one is not among these.
#[derive(Drop)]
pub(crate) struct Labels<'a> {
    blocks: &'a [Block],
    // The blocks, where it is known that no two have one label, and else none.
    known: &'a [Block],
    index: Option<Index>,
    ghost few: { length blocks.now < 4294967296 },
    ghost known_places: { HasPlaces blocks.now known.now },
    ghost indexed: { ForSome index (λ i. Indexes i (labels blocks.now)) },
}

impl<'a> Labels<'a> {
    /// The labels of these blocks.
    pub(crate) fn of(alloc: Global, blocks: &'a [Block]) -> Result<Labels<'a>, NoMemory>
        requires { length blocks.now < 4294967296 }
        ensures { IfOk result (λ made. made.blocks.now ≡ blocks.now) }
    {
        let apart = are_apart(alloc, blocks)?;
        Ok(Labels {
            blocks,
            known: known_of(blocks, apart),
            index: None,
        })
    }

    /// The block that a label names, the entry where no block has it. It is sought for the block of this number, behind
    /// the targets of those before it.
    pub(crate) fn place_of(
        &mut self,
        alloc: Global,
        block: usize,
        targets: &[u32],
        label: &Name,
    ) -> Result<u32, NoMemory>
        ensures place { IfOk result (λ place. place ≡ place_in self.old.blocks.now label.now) }
        ensures same { self.new.blocks ≡ self.old.blocks }
    {
        match nearby(self.known, block, targets, label) {
            Some(place) => Ok(place as u32),
            None => self.look_up(alloc, label),
        }
    }

    // The same by the index.
    fn look_up(&mut self, alloc: Global, label: &Name) -> Result<u32, NoMemory>
        ensures place { IfOk result (λ place. place ≡ place_in self.old.blocks.now label.now) }
        ensures same { self.new.blocks ≡ self.old.blocks }
    {
        let index = index_or(alloc, self.blocks, self.index.take())?;
        let place = find(&index, label);
        self.index = Some(index);
        Ok(place)
    }
}

// The index, or a new one where there is none.
fn index_or(alloc: Global, blocks: &[Block], index: Option<Index>) -> Result<Index, NoMemory>
    requires { IfSome index (λ i. Indexes i (labels blocks.now)) }
    ensures { IfOk result (λ i. Indexes i (labels blocks.now)) }
{
    match index {
        Some(index) => Ok(index),
        None => index_of(alloc, blocks),
    }
}

fn index_of(alloc: Global, blocks: &[Block]) -> Result<Index, NoMemory>
    ensures { IfOk result (λ index. Indexes index (labels blocks.now)) }
{
    let mut index = Index::with_room(alloc, blocks.len())?;
    for (b, block) in blocks.iter().enumerate() {
        index.add(alloc, block.label.bytes(), b)?;
    }
    Ok(index)
}

fn find(index: &Index, label: &Name) -> u32
    requires { HasFewPlaces index.now }
    ensures { result ≡ found index.now label.now }
{
    match index.find(label.bytes()) {
        Some(b) => b as u32,
        None => 0,
    }
}

// The blocks, or none of them.
fn known_of(blocks: &[Block], apart: bool) -> &[Block]
    ensures { result.now ≡ (if apart then blocks.now else []) }
{
    if apart { blocks } else { &[] }
}

// Whether there are many blocks and all their labels have hashes of their own. Then no two labels are one.
fn are_apart(alloc: Global, blocks: &[Block]) -> Result<bool, NoMemory>
    ensures { IfOk result (λ apart. apart ≡ true → HasPlaces blocks.now blocks.now) }
{
    if blocks.len() < MANY {
        return Ok(false);
    }
    let mut hashes = hashes_of(alloc, blocks)?;
    hashes.sort_unstable();
    Ok(rise(hashes.as_slice()))
}

fn hashes_of(alloc: Global, blocks: &[Block]) -> Result<Vec<u64>, NoMemory>
    ensures { IfOk result (λ hashes. hashes.items ≡ map label_hash (labels blocks.now)) }
{
    let mut hashes = Vec::with_capacity(alloc, blocks.len())?;
    for block in blocks {
        hashes.push(label_hash(block.label.bytes()))?;
    }
    Ok(hashes)
}

fn label_hash(label: &[u8]) -> u64
    ensures { result ≡ label_hash label.now }
{
    let mut hasher = FoldHasher::default();
    hasher.write(label);
    hasher.finish()
}

// Whether each number is greater than the one before it.
fn rise(numbers: &[u64]) -> bool
    ensures { result ≡ true → IsStrictlyIncreasing numbers.now }
{
    for i in 1..numbers.len() {
        if numbers[i] <= numbers[i - 1] {
            return false;
        }
    }
    true
}

// The place of a label, if it is one of a few: those behind the block that leads to it, and those at and
// next to the two last ones that blocks lead to.
fn nearby(known: &[Block], block: usize, targets: &[u32], label: &Name) -> Option<usize>
    ensures { IfSome result (λ place. HasLabel known.now place label.now) }
{
    let last = from_end(targets, 1);
    let before = from_end(targets, 2);
    let guesses = [
        block.wrapping_add(1),
        block.wrapping_add(2),
        last.wrapping_add(1),
        last,
        before.wrapping_sub(1),
        before,
    ];
    for place in guesses.iter() {
        if has_label(known, *place, label) {
            return Some(*place);
        }
    }
    None
}

fn from_end(targets: &[u32], count: usize) -> usize {
    match targets.get(targets.len().wrapping_sub(count)) {
        Some(target) => *target as usize,
        None => 0,
    }
}

fn has_label(blocks: &[Block], place: usize, label: &Name) -> bool
    ensures { result ≡ true → HasLabel blocks.now place label.now }
{
    match blocks.get(place) {
        Some(block) => are_same(&block.label, label),
        None => false,
    }
}

fn are_same(one: &Name, other: &Name) -> bool
    ensures { result ≡ true → one.now ≡ other.now }
{
    one.bytes() == other.bytes()
}
