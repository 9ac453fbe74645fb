// The parts of joining one tally to another.
ghost use Rattle.std.specs.Prelude.{◌≡◌, ◌+◌, ◌<◌, ◌^◌, ℕ, List, Option, Some, None, length, find, slice_get, slice_index, slice_index_or, min, ◌++◌, [], OnOk, IfOk, vec_len};
ghost use Rattle.prof_view.specs.Profile.{ProfileRecord};
ghost use Rattle.prof_text.specs.Merged.{most};
ghost use Rattle.prof_text.specs.Mismatch.{differs_from};
ghost use Rattle.prof_text.specs.Site.{sites_of};
ghost use Rattle.prof_text.specs.Sums.{IsCounterTally, IsSiteTally};

use pgo_base::NoMemory;

// The first number that differs from `first` among numbers of which `other` is the first that does, followed by numbers
// that begin with `next` and of which `next_other` is the first that differs from `next`.
#[inline(always)]
pub fn first_other(
    first: usize,
    other: Option<u32>,
    next: usize,
    next_other: Option<u32>,
) -> Option<u32>
    requires { next < 2 ^ 32 }
    ensures none { result ≡ None → (other ≡ None) × (next ≡ first) × (next_other ≡ None) }
    ensures found { (ns ms : List ℕ) → other ≡ find (differs_from first) ns → slice_get ms 0 ≡ Some next → next_other ≡ find (differs_from next) ms → result ≡ find (differs_from first) (ns ++ ms) }
{
    if other.is_some() {
        return other;
    }
    if next != first {
        return Some(next as u32);
    }
    next_other
}

// Adds each number to its sum, which stops at the largest number.
#[inline(always)]
pub fn add_all(sums: &mut [u64], more: &[u64])
    requires { length sums.old ≡ length more.now }
    ensures { (i : ℕ) → slice_index sums.new i ≡ min (slice_index sums.old i + slice_index more.now i) most }
{
    for (i, number) in more.iter().enumerate() {
        sums[i] = sums[i].saturating_add(*number);
    }
}

// Puts the targets of each site behind those that it has.
pub fn append_all<'a>(
    sites: &mut [Vec<(&'a [u8], u64)>],
    more: &[Vec<(&'a [u8], u64)>],
) -> Result<(), NoMemory>
    requires { length sites.old ≡ length more.now }
    ensures { OnOk result ((s : ℕ) → slice_index_or (sites_of sites.new) s [] ≡ slice_index_or (sites_of sites.old) s [] ++ slice_index_or (sites_of more.now) s []) }
{
    for (s, targets) in more.iter().enumerate() {
        sites[s].extend_from_slice(targets.as_slice())?;
    }
    Ok(())
}

/// Makes the sums those of their own records and then those of `more`. Answers the first number of counters that differs
/// from that of the first record.
pub fn join_counters(
    sums: &mut Vec<u64>,
    other: Option<u32>,
    more: &[u64],
    more_other: Option<u32>,
) -> Option<u32>
    requires { length more.now < 2 ^ 32 }
    ensures len { vec_len sums.new ≡ vec_len sums.old }
    ensures joined { (rs us : List ProfileRecord) → IsCounterTally sums.old.items other rs → IsCounterTally more.now more_other us → IsCounterTally sums.new.items result (rs ++ us) }
{
    let differs = first_other(sums.len(), other, more.len(), more_other);
    if differs.is_some() {
        return differs;
    }
    add_all(sums.as_mut_slice(), more);
    None
}

/// The same of the sites.
pub fn join_sites<'a>(
    sites: &mut Vec<Vec<(&'a [u8], u64)>>,
    other: Option<u32>,
    more: &[Vec<(&'a [u8], u64)>],
    more_other: Option<u32>,
) -> Result<Option<u32>, NoMemory>
    requires { length more.now < 2 ^ 32 }
    ensures len { vec_len sites.new ≡ vec_len sites.old }
    ensures joined { (rs us : List ProfileRecord) → IsSiteTally (sites_of sites.old.items) other rs → IsSiteTally (sites_of more.now) more_other us → IfOk result (λ differs. IsSiteTally (sites_of sites.new.items) differs (rs ++ us)) }
{
    let differs = first_other(sites.len(), other, more.len(), more_other);
    if differs.is_some() {
        return Ok(differs);
    }
    append_all(sites.as_mut_slice(), more)?;
    Ok(None)
}
