// The edges that keep a counter.
ghost use Rattle.std.specs.Prelude.{◌≡◌, ℕ, ◌<◌, ◌==◌, ◌&&◌, ◌||◌, ◌++◌, [], ◌∷◌, false, not, if◌then◌else◌, length, replicate, IfOk, OnOk};
ghost use Rattle.cfg_tree.specs.Counted.{counted_of};
ghost use Rattle.cfg_tree.specs.Marked.{AreAmong};
ghost use Rattle.spanning_order.specs.Lists.{Among};

use crate::marks::no_marks;
use pgo_base::NoMemory;
use std::alloc::Global;

// Of so many edges those outside an order, by rising number, and the entry edge where the entry is
// counted first.
pub(crate) fn counted_edges(
    alloc: Global,
    edges: usize,
    order: &[u32],
    entry_first: bool,
) -> Result<Vec<u32>, NoMemory>
    requires few { edges < 4294967296 }
    requires order { (k : ℕ) → Among k order.now → k < edges }
    ensures { IfOk result (λ counted. counted.items ≡ counted_of edges order.now entry_first) }
{
    let marks = marks_of(alloc, order, edges)?;
    let mut counted = Vec::new(alloc);
    for (k, in_order) in marks.iter().enumerate() {
        push_if(
            is_counted(*in_order, entry_first, k),
            k as u32,
            &mut counted,
        )?;
    }
    Ok(counted)
}

fn is_counted(in_order: bool, entry_first: bool, number: usize) -> bool
    ensures { result ≡ (not in_order || (entry_first && number == 0)) }
{
    !in_order || (entry_first && number == 0)
}

fn push_if(holds: bool, number: u32, numbers: &mut Vec<u32>) -> Result<(), NoMemory>
    ensures { OnOk result (numbers.new.items ≡ numbers.old.items ++ (if holds then number ∷ [] else [])) }
{
    if holds {
        numbers.push(number)?;
    }
    Ok(())
}

// Of so many marks those of the numbers of a list are set.
fn marks_of(alloc: Global, numbers: &[u32], count: usize) -> Result<Vec<bool>, NoMemory>
    requires { (k : ℕ) → Among k numbers.now → k < count }
    ensures size { IfOk result (λ marks. length marks.items ≡ count) }
    ensures marks { IfOk result (λ marks. AreAmong numbers.now marks.items) }
{
    let mut marks = no_marks(alloc, count)?;
    mark_all(numbers, marks.as_mut_slice());
    Ok(marks)
}

fn mark_all(order: &[u32], marks: &mut [bool])
    requires order { (k : ℕ) → Among k order.now → k < length marks.old }
    requires none { marks.old ≡ replicate (length marks.old) false }
    ensures { AreAmong order.now marks.new }
{
    for number in order {
        marks[*number as usize] = true;
    }
}
