// The targets of a merged site.
ghost use Rattle.std.specs.Prelude.{◌≡◌, ◌<◌, ℕ, List, [], length, map, IfOk, slice_index_or};
ghost use Rattle.std.specs.BTreeMap as tree;
ghost use Rattle.prof_text.specs.Merged.{of_name, IsMergedSite};
ghost use Rattle.prof_text.specs.Site.{total_of, borrowed_cmp, against, targets_of, sites_of};

use crate::record::Target;
use pgo_base::NoMemory;
use seq::Seq;
use std::alloc::Global;
use std::collections::BTreeMap;

// The sum of the counts of each name.
fn counts_of<'a>(
    alloc: Global,
    targets: &[(&'a [u8], u64)],
) -> Result<BTreeMap<&'a [u8], u64>, NoMemory>
    ensures totals { IfOk result (λ m. (name : List ℕ) → tree.get_by (against name) m ≡ total_of (of_name name (targets_of targets.now))) }
    ensures ordered { IfOk result (tree.IsOrdered borrowed_cmp) }
{
    let mut counts: BTreeMap<&'a [u8], u64> = BTreeMap::new(alloc);
    for (name, count) in targets {
        let sum = counts.get(name).copied().unwrap_or(0);
        counts.insert(*name, sum.saturating_add(*count))?;
    }
    Ok(counts)
}

// The names with their counts, in order.
fn listed(alloc: Global, counts: BTreeMap<&[u8], u64>) -> Result<Seq<Target>, NoMemory>
    ensures { IfOk result (λ site. site ≡ targets_of counts.entry.entries) }
{
    let mut site = Vec::new(alloc);
    for (name, count) in counts {
        site.push((Seq::of(Vec::from_slice(alloc, name)?), count))?;
    }
    Ok(Seq::of(site))
}

// Each name of the targets once, by name, with the capped sum of its counts.
fn merged_site(alloc: Global, targets: &[(&[u8], u64)]) -> Result<Seq<Target>, NoMemory>
    ensures { IfOk result (IsMergedSite (targets_of targets.now)) }
{
    let counts = counts_of(alloc, targets)?;
    listed(alloc, counts)
}

/// The merged site of each list of targets, in order.
pub fn merged_sites(
    alloc: Global,
    sites: &[Vec<(&[u8], u64)>],
) -> Result<Seq<Seq<Target>>, NoMemory>
    ensures len { IfOk result (λ merged. length merged ≡ length sites.now) }
    ensures merged { IfOk result (λ merged. (s : ℕ) → s < length sites.now → IsMergedSite (slice_index_or (sites_of sites.now) s []) (slice_index_or merged s [])) }
{
    let mut merged = Vec::new(alloc);
    for targets in sites {
        merged.push(merged_site(alloc, targets.as_slice())?)?;
    }
    Ok(Seq::of(merged))
}
