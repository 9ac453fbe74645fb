// The counters of the edges outside the order, and that of the entry edge.
ghost use Rattle.std.specs.Prelude.{◌≡◌, ◌≢◌, ℕ, ◌<◌, length, slice_index, AllPairs, OnOk, IfErr};
ghost use Rattle.spanning_order.specs.Lists.{Among};
ghost use Rattle.flow_solve.specs.declared.answer.SolveError.TheVariants as error;

use crate::SolveError;

// The counter of the entry edge against its count, where it has a counter and joins a node at an end.
pub(crate) fn check_entry(
    end: u64,
    counted: &[u32],
    counters: &[u64],
    count: u64,
) -> Result<(), SolveError>
    requires sizes { length counters.now ≡ length counted.now }
    requires rising { AllPairs (λ j k. j < k) counted.now }
    ensures ok { OnOk result (end ≢ 0 → (c : ℕ) → c < length counted.now → slice_index counted.now c ≡ 0 → slice_index counters.now c ≡ count) }
    ensures differs { IfErr result (λ e. (end ≢ 0) × (0 < length counted.now) × (slice_index counted.now 0 ≡ 0) × (slice_index counters.now 0 ≢ count) × (e ≡ error.EntryDiffers (slice_index counters.now 0))) }
{
    if end == 0 || counted.is_empty() || counted[0] != 0 || counters[0] == count {
        return Ok(());
    }
    Err(SolveError::EntryDiffers {
        counter: counters[0],
    })
}

pub(crate) fn write_counters(counted: &[u32], counters: &[u64], counts: &mut [u64])
    requires sizes { length counters.now ≡ length counted.now }
    requires rising { AllPairs (λ j k. j < k) counted.now }
    requires edges { (k : ℕ) → Among k counted.now → k < length counts.old }
    ensures counters { (c : ℕ) → c < length counted.now → slice_index counts.new (slice_index counted.now c) ≡ slice_index counters.now c }
    ensures others { (k : ℕ) → (Among k counted.now → ⊥) → slice_index counts.new k ≡ slice_index counts.old k }
{
    for (c, number) in counted.iter().enumerate() {
        counts[*number as usize] = counters[c];
    }
}
