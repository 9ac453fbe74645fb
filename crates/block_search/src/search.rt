// Blocks are marked by a work list: each is marked once, when it is first met.
ghost use Rattle.std.specs.Prelude.{◌≡◌, ℕ, ◌<◌, List, length, IfOk, OnOk, Some, slice_get};
ghost use Rattle.block_search.specs.Search.{Found, spread, state};
ghost use Rattle.ir_tree.specs.Reach.{AreRows, AreMarks, reached};

use crate::rows::Rows;
use pgo_base::NoMemory;
use std::alloc::Global;

/// Which blocks block 0 leads to, one mark a block. The time is linear in the number of blocks and of
/// successors.
pub fn reachable(alloc: Global, rows: &Rows) -> Result<Vec<bool>, NoMemory>
    requires { AreRows rows.now }
    ensures value { IfOk result (λ marks. marks.items ≡ reached rows.now) }
    ensures marks { IfOk result (λ marks. AreMarks rows.now marks.items) }
{
    let mut marks = vec![in alloc; false; rows.len()]?;
    marks[0] = true;
    let work = vec![in alloc; 0]?;
    search(rows, marks.as_mut_slice(), work)?;
    Ok(marks)
}

/// The marks that are computed in rounds are on exactly the blocks to which a walk leads.
pub fn reached_are_marks()
    ensures { (rows : List (List ℕ)) → AreRows rows → AreMarks rows (reached rows) }
{}

// Marks what the blocks that wait lead to.
fn search(rows: &Rows, marks: &mut [bool], mut work: Vec<u32>) -> Result<(), NoMemory>
    requires rows { AreRows rows.now }
    requires found { Found rows.now marks.old work.items }
    ensures value { OnOk result (marks.new ≡ reached rows.now) }
    ensures marks { OnOk result (AreMarks rows.now marks.new) }
{
    while let Some(block) = work.pop() {
        spread(rows.row(block as usize), marks, &mut work)?;
    }
    Ok(())
}

// Marks each block of a row that has no mark, and lets it wait.
fn spread(row: &[u32], marks: &mut [bool], work: &mut Vec<u32>) -> Result<(), NoMemory>
    requires { (p t : ℕ) → slice_get row.now p ≡ Some t → t < length marks.old }
    ensures { OnOk result (state marks.new work.new.items ≡ spread row.now marks.old work.old.items) }
{
    for target in row {
        let mark = &mut marks[*target as usize];
        if !*mark {
            *mark = true;
            work.push(*target)?;
        }
    }
    Ok(())
}
