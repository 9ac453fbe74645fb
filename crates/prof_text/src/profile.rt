// A profile that owns its records.
ghost use Rattle.std.specs.Prelude.{◌≡◌, ◌<◌, ◌^◌, ◌∷◌, [], length, All, IfOk, IfErr};
ghost use Rattle.prof_text.specs.Gathered.{Gathers};
ghost use Rattle.prof_text.specs.Merged.{of_key, IsMerged};
ghost use Rattle.prof_text.specs.Mismatch.{IsMismatch};
ghost use Rattle.prof_text.specs.Record.{value_of, values_of};
ghost use Rattle.prof_text.specs.Site.{targets_of, sites_of};
ghost use Rattle.prof_text.specs.Tally.{Tallies};

use crate::error::MergeError;
use crate::gathered::Gathered;
use crate::record::{ProfRecord, Target};
use crate::tally::Tally;
use pgo_base::NoMemory;
use seq::Seq;
use std::alloc::Global;
use std::marker::Model;

/// A profile: its records by name bytes and then hash, each name and hash once, with the targets of each site by name,
/// each name once; and its mode, whether counter 0 of a function counts its entries.
#[derive(Debug, Drop)]
pub struct Profile {
    entry_first: bool,
    records: Vec<ProfRecord>,
}

impl Model for Profile {
    ghost use Rattle.prof_view.specs.Profile.{ProfileInput};
    ghost use Rattle.prof_text.specs.Record.{values_of};

    ghost Value = { ProfileInput };

    ghost view = { λ p. record { entry_first = p.entry_first; records = values_of p.records.items } };
}

impl Profile {
    // These records, which are merged.
    pub(crate) fn of(records: Vec<ProfRecord>, entry_first: bool) -> Profile
        ensures mode { result.entry_first ≡ entry_first }
        ensures records { result.records ≡ values_of records.items }
    {
        Profile {
            entry_first,
            records,
        }
    }

    /// The merge of these records, each of which has fewer than 2^32 counters and fewer than 2^32 sites: records of one
    /// name and hash are added up, counter by counter and target by target, where sums stop at 2^64 - 1. Is refused
    /// exactly where two records of one name and hash have other numbers of counters or of sites; never answers
    /// `HeaderMismatch`. This is how `llvm-profdata merge` adds records up.
    pub fn of_records(
        alloc: Global,
        records: Vec<ProfRecord>,
        entry_first: bool,
    ) -> Result<Profile, MergeError>
        requires counters { All (λ r. length r.counters < 2 ^ 32) records.items }
        requires sites { All (λ r. length r.sites < 2 ^ 32) records.items }
        ensures merged { IfOk result (λ p. (p.entry_first ≡ entry_first) × IsMerged (values_of records.items) p.records) }
        ensures refused { IfErr result (IsMismatch (values_of records.items)) }
    {
        let gathered = gathered_of(alloc, records.as_slice())?;
        gathered.finish(alloc, entry_first)
    }

    /// The records, by name and then hash. Takes no memory.
    pub fn records(&self) -> &[ProfRecord]
        ensures { values_of result.now ≡ self.now.records }
    {
        self.records.as_slice()
    }

    /// Whether counter 0 of a function counts its entries. Takes no memory.
    pub fn entry_first(&self) -> bool
        ensures { result ≡ self.now.entry_first }
    {
        self.entry_first
    }
}

// The targets with borrowed names.
fn borrowed_targets<'a>(alloc: Global, site: &'a [Target]) -> Result<Vec<(&'a [u8], u64)>, NoMemory>
    ensures { IfOk result (λ v. targets_of v.items ≡ site.now) }
{
    let mut targets = Vec::new(alloc);
    for (name, count) in site {
        targets.push((name.as_slice(), *count))?;
    }
    Ok(targets)
}

fn borrowed_sites<'a>(
    alloc: Global,
    sites: &'a [Seq<Target>],
) -> Result<Vec<Vec<(&'a [u8], u64)>>, NoMemory>
    ensures { IfOk result (λ v. sites_of v.items ≡ sites.now) }
{
    let mut borrowed = Vec::new(alloc);
    for site in sites {
        borrowed.push(borrowed_targets(alloc, site.as_slice())?)?;
    }
    Ok(borrowed)
}

// The tally of one record.
fn tally_of<'a>(alloc: Global, owned: &'a ProfRecord) -> Result<Tally<'a>, NoMemory>
    requires counters { length owned.now.counters < 2 ^ 32 }
    requires sites { length owned.now.sites < 2 ^ 32 }
    ensures { IfOk result (λ t. Tallies t (value_of owned.now ∷ [])) }
{
    let counters = Vec::from_slice(alloc, owned.counters.as_slice())?;
    let sites = borrowed_sites(alloc, owned.sites.as_slice())?;
    Ok(Tally::of(counters, sites))
}

// The records, gathered by their keys.
fn gathered_of<'a>(alloc: Global, records: &'a [ProfRecord]) -> Result<Gathered<'a>, NoMemory>
    requires counters { All (λ r. length r.counters < 2 ^ 32) records.now }
    requires sites { All (λ r. length r.sites < 2 ^ 32) records.now }
    ensures { IfOk result (λ g. Gathers g (λ key. of_key key (values_of records.now))) }
{
    let mut gathered = Gathered::new(alloc);
    for record in records {
        let tally = tally_of(alloc, record)?;
        gathered.put(record.name.as_slice(), record.hash, tally)?;
    }
    Ok(gathered)
}
