// What is assigned before each block shrinks along the edges until nothing changes. Blocks whose word changed wait in a list.
ghost use Rattle.std.specs.Prelude.{◌≡◌, ℕ, ◌<◌, length, IfOk, OnOk, Some, slice_get};
ghost use Rattle.definite_assignment.specs.Assigned.{AreAssigned};
ghost use Rattle.definite_assignment.specs.Narrowing.{Narrowing, narrow, state};
ghost use Rattle.ir_tree.specs.Reach.{AreRows};

use block_search::Rows;
use pgo_base::NoMemory;
use std::alloc::Global;

/// For each block a word whose bit j is 1 where every walk from block 0 to the block leaves a block whose word in `gives` has bit j. A
/// block that no walk leads to has all bits. Each block is looked at again only when its word has lost a bit.
pub fn assigned(alloc: Global, rows: &Rows, gives: &[u64]) -> Result<Vec<u64>, NoMemory>
    requires rows { AreRows rows.now }
    requires gives { length gives.now ≡ length rows.now }
    ensures { IfOk result (λ words. AreAssigned rows.now gives.now words.items) }
{
    let mut words = vec![in alloc; 18446744073709551615; rows.len()]?;
    words[0] = 0;
    let work = vec![in alloc; 0]?;
    settle(rows, gives, words.as_mut_slice(), work)?;
    Ok(words)
}

// Hands on what the blocks that wait have, until none waits.
fn settle(rows: &Rows, gives: &[u64], words: &mut [u64], mut work: Vec<u32>) -> Result<(), NoMemory>
    requires rows { AreRows rows.now }
    requires gives { length gives.now ≡ length rows.now }
    requires narrowing { Narrowing rows.now gives.now words.old work.items }
    ensures { OnOk result (AreAssigned rows.now gives.now words.new) }
{
    while let Some(block) = work.pop() {
        let out = words[block as usize] | gives[block as usize];
        narrow(rows.row(block as usize), out, words, &mut work)?;
    }
    Ok(())
}

// Leaves each block of a row only the bits that are handed on to it; one that loses a bit waits.
fn narrow(row: &[u32], out: u64, words: &mut [u64], work: &mut Vec<u32>) -> Result<(), NoMemory>
    requires { (p t : ℕ) → slice_get row.now p ≡ Some t → t < length words.old }
    ensures { OnOk result (state words.new work.new.items ≡ narrow row.now out words.old work.old.items) }
{
    for target in row {
        let word = &mut words[*target as usize];
        let left = *word & out;
        if left != *word {
            *word = left;
            work.push(*target)?;
        }
    }
    Ok(())
}
