// The sums that a view added, one for each counter.
ghost use Rattle.std.specs.Prelude.{◌≡◌, ℕ, ◌+◌, ◌<◌, ◌^◌, slice_index, OnOk, OnErr, IfOk};
ghost use Rattle.count_core.specs.CoreView.{raised, lengthened, joined};

use seq::Seq;
use std::alloc::{AllocError, Global};
use std::mem;

// Puts zeros behind the list until it is as long as `count`.
fn lengthen(alloc: Global, sums: &mut Seq<u128>, count: usize) -> Result<(), AllocError>
    ensures ok { OnOk result (sums.new ≡ lengthened sums.old count) }
    ensures err { OnErr result (sums.new ≡ sums.old) }
{
    let mut items = mem::replace(sums, Seq::new(alloc)).take();
    let grown = if items.len() < count {
        items.resize(count, 0)
    } else {
        Ok(())
    };
    *sums = Seq::of(items);
    grown
}

/// Adds `step` at `index`. The list is first lengthened by zeros until `index` is inside.
pub(crate) fn raise(
    alloc: Global,
    sums: &mut Seq<u128>,
    index: u32,
    step: u64,
) -> Result<(), AllocError>
    requires { slice_index sums.old index + step < 2 ^ 128 }
    ensures ok { OnOk result (sums.new ≡ raised sums.old index step) }
    ensures err { OnErr result (sums.new ≡ sums.old) }
{
    let index = index as usize;
    lengthen(alloc, sums, index + 1)?;
    let sums = sums.as_mut_slice();
    sums[index] += u128::from(step);
    Ok(())
}

fn sum_at(sums: &[u128], index: usize) -> u128
    ensures { result ≡ slice_index sums.now index }
{
    sums.get(index).copied().unwrap_or(0)
}

/// The sums of two lists, one by one. The shorter one is lengthened by zeros.
pub(crate) fn joined_sums(
    alloc: Global,
    first: &[u128],
    second: &[u128],
) -> Result<Seq<u128>, AllocError>
    requires { (c : ℕ) → slice_index first.now c + slice_index second.now c < 2 ^ 128 }
    ensures { IfOk result (λ sums. sums ≡ joined first.now second.now) }
{
    let count = first.len().max(second.len());
    let mut sums = Vec::with_capacity(alloc, count)?;
    for index in 0..count {
        sums.push(sum_at(first, index) + sum_at(second, index))?;
    }
    Ok(Seq::of(sums))
}
