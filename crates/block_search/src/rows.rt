// The successors of all blocks, in two vectors.
ghost use Rattle.std.specs.Prelude.{◌≡◌, ◌<◌, ◌≤◌, length, slice_range};
ghost use Rattle.block_search.specs.Rows.{cut, begins, AreEnds};
ghost use Rattle.ir_tree.specs.Reach.{row};

use std::marker::Model;

/// The successors of the blocks of a graph: for each block a row with the numbers of its successors in
/// order. A block may stand in a row more than once. Contracts see the rows as a list of lists.
#[derive(Debug, Drop)]
pub struct Rows {
    // where each row ends among the targets
    ends: Vec<usize>,
    targets: Vec<u32>,
}

impl Model for Rows {
    ghost use Rattle.std.specs.Prelude.{ℕ, List, length};
    ghost use Rattle.block_search.specs.Rows.{cut, AreEnds};

    ghost Value = { List (List ℕ) };

    ghost view = { λ r. cut 0 r.ends.items r.targets.items };

    ghost invariant = { λ r. AreEnds 0 r.ends.items (length r.targets.items) };
}

impl Rows {
    /// The rows of which each ends among the targets at its number in `ends`, and the next begins there.
    pub fn of(ends: Vec<usize>, targets: Vec<u32>) -> Rows
        requires { AreEnds 0 ends.items (length targets.items) }
        ensures { result ≡ cut 0 ends.items targets.items }
    {
        Rows { ends, targets }
    }

    /// The number of rows, one a block.
    pub fn len(&self) -> usize
        ensures { result ≡ length self.now }
    {
        self.ends.len()
    }

    /// The successors of a block.
    pub fn row(&self, block: usize) -> &[u32]
        requires { block < length self.now }
        ensures { result.now ≡ row self.now block }
    {
        part(self.ends.as_slice(), self.targets.as_slice(), block)
    }
}

// The targets from where a row begins to where it ends.
fn part<'a>(ends: &[usize], targets: &'a [u32], block: usize) -> &'a [u32]
    requires within { block < length ends.now }
    requires ends { AreEnds 0 ends.now (length targets.now) }
    ensures { result.now ≡ row (cut 0 ends.now targets.now) block }
{
    between(targets, start_of(ends, block), ends[block])
}

fn between(targets: &[u32], start: usize, end: usize) -> &[u32]
    requires rises { start ≤ end }
    requires within { end ≤ length targets.now }
    ensures { result.now ≡ slice_range targets.now start end }
{
    &targets[start..end]
}

// A row begins where the one before it ends.
fn start_of(ends: &[usize], block: usize) -> usize
    requires { block < length ends.now }
    ensures { result ≡ begins 0 ends.now block }
{
    if block == 0 { 0 } else { ends[block - 1] }
}
