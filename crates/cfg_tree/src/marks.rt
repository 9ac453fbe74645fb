// Marks by number.
ghost use Rattle.std.specs.Prelude.{◌≡◌, false, replicate, IfOk};

use pgo_base::NoMemory;
use std::alloc::Global;

// So many marks, none of which is set.
pub(crate) fn no_marks(alloc: Global, count: usize) -> Result<Vec<bool>, NoMemory>
    ensures { IfOk result (λ marks. marks.items ≡ replicate count false) }
{
    Ok(vec![in alloc; false; count]?)
}
