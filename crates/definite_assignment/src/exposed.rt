// The first use that can be reached without leaving the block that gives what is used.
ghost use Rattle.std.specs.Prelude.{◌≡◌, ◌≢◌, ℕ, ◌<◌, ◌==◌, All, IfOk, length, position, slice_index};
ghost use Rattle.std.specs.Int.{bit_at};
ghost use Rattle.definite_assignment.specs.Chunks.{AreBlocks, Gives, earlier, is_open_in, is_open_tag};
ghost use Rattle.definite_assignment.specs.Uses.{AreTagged, is_exposed, lacks};
ghost use Rattle.ir_tree.specs.Reach.{AreRows};

use crate::givers::{Tagged, Use, number_givers};
use crate::settling::assigned;
use block_search::{Rows, reached_are_marks};
use pgo_base::NoMemory;
use std::alloc::Global;

/// The first use whose block a walk from block 0 reaches without leaving the block that gives what is used. 64 blocks that give are
/// looked at together, so a function with few of them costs a few searches of the graph.
pub fn first_exposed(alloc: Global, rows: &Rows, uses: &[Use]) -> Result<Option<usize>, NoMemory>
    requires rows { AreRows rows.now }
    requires givers { All (λ u. u.giver < length rows.now) uses.now }
    requires places { All (λ u. u.at < length rows.now) uses.now }
    ensures { IfOk result (λ found. found ≡ position (is_exposed rows.now) uses.now) }
{
    let of = number_givers(alloc, rows.len(), uses)?;
    first_open(alloc, rows, of.givers.as_slice(), of.tagged.as_slice())
}

// The chunks one after the other, each with 64 of the blocks that give.
fn first_open(
    alloc: Global,
    rows: &Rows,
    givers: &[u32],
    tagged: &[Tagged],
) -> Result<Option<usize>, NoMemory>
    requires rows { AreRows rows.now }
    requires within { All (λ g. g < length rows.now) givers.now }
    requires tagged { AreTagged givers.now tagged.now }
    requires blocks { AreBlocks (length rows.now) tagged.now }
    ensures { IfOk result (λ found. found ≡ position (is_open_tag rows.now) tagged.now) }
{
    let mut found = None;
    for c in 0..givers.len() / 64 + 1 {
        let here = open_in(alloc, rows, givers, tagged, c)?;
        found = earlier(found, here);
    }
    Ok(found)
}

fn earlier(a: Option<usize>, b: Option<usize>) -> Option<usize>
    ensures { result ≡ earlier a b }
{
    match (a, b) {
        (None, b) => b,
        (Some(i), None) => Some(i),
        (Some(i), Some(j)) => { if j < i { Some(j) } else { Some(i) } }
    }
}

// The first open use of one chunk.
fn open_in(
    alloc: Global,
    rows: &Rows,
    givers: &[u32],
    tagged: &[Tagged],
    c: usize,
) -> Result<Option<usize>, NoMemory>
    requires rows { AreRows rows.now }
    requires within { All (λ g. g < length rows.now) givers.now }
    requires tagged { AreTagged givers.now tagged.now }
    requires blocks { AreBlocks (length rows.now) tagged.now }
    ensures { IfOk result (λ found. found ≡ position (is_open_in rows.now c) tagged.now) }
{
    let gives = gives_of(alloc, rows.len(), givers, c)?;
    let words = assigned(alloc, rows, gives.as_slice())?;
    reached_are_marks();
    Ok(first_lacking(words.as_slice(), c, tagged))
}

fn first_lacking(words: &[u64], c: usize, tagged: &[Tagged]) -> Option<usize>
    ensures { result ≡ position (lacks words.now c) tagged.now }
{
    tagged.iter().position(|t| lacks(words, c, t))
}

fn lacks(words: &[u64], c: usize, t: &Tagged) -> bool
    ensures { result ≡ lacks words.now c t.now }
{
    t.slot / 64 == c && is_clear(words, t.at, t.slot % 64)
}

fn is_clear(words: &[u64], at: u32, bit: usize) -> bool
    requires { bit < 64 }
    ensures { result ≡ (bit_at (slice_index words.now at) bit == 0) }
{
    match words.get(at as usize) {
        Some(word) => (*word >> bit) & 1 == 0,
        None => true,
    }
}

// For each block the bits of the chunk that it gives.
fn gives_of(alloc: Global, count: usize, givers: &[u32], c: usize) -> Result<Vec<u64>, NoMemory>
    requires { All (λ g. g < count) givers.now }
    ensures size { IfOk result (λ words. length words.items ≡ count) }
    ensures gives { IfOk result (λ words. Gives (length givers.now) givers.now c words.items) }
{
    let mut words = vec![in alloc; 0u64; count]?;
    for (s, giver) in givers.iter().enumerate() {
        if s / 64 == c {
            set_bit(words.as_mut_slice(), *giver, s % 64);
        }
    }
    Ok(words)
}

fn set_bit(words: &mut [u64], block: u32, bit: usize)
    requires within { block < length words.old }
    requires bit { bit < 64 }
    ensures size { length words.new ≡ length words.old }
    ensures set { bit_at (slice_index words.new block) bit ≡ 1 }
    ensures other { (j : ℕ) → j ≢ bit → bit_at (slice_index words.new block) j ≡ bit_at (slice_index words.old block) j }
    ensures kept { (a : ℕ) → a ≢ block → slice_index words.new a ≡ slice_index words.old a }
{
    words[block as usize] |= 1u64 << bit;
}
