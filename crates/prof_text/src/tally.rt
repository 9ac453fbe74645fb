// The sums of one key's records.
ghost use Rattle.std.specs.Prelude.{◌≡◌, ◌<◌, ◌^◌, List, length, ◌++◌, ◌∷◌, [], OnOk, IfOk, IfErr, vec_len};
ghost use Rattle.prof_view.specs.Profile.{ProfileRecord};
ghost use Rattle.prof_text.specs.Merged.{IsSumOf};

use crate::error::MergeError;
use crate::joining::{join_counters, join_sites};
use crate::record::ProfRecord;
use crate::site::merged_sites;
use pgo_base::NoMemory;
use seq::Seq;
use std::alloc::Global;

/// What is kept of the records of one key while they are merged: their sums, and the first numbers of counters and of
/// sites that differ from the first record's.
#[derive(Debug, Drop)]
pub struct Tally<'a> {
    counters: Vec<u64>,
    other_counters: Option<u32>,
    sites: Vec<Vec<(&'a [u8], u64)>>,
    other_sites: Option<u32>,
    ghost few_counters: { length counters.items < 2 ^ 32 },
    ghost few_sites: { length sites.items < 2 ^ 32 },
}

impl<'a> Tally<'a> {
    ghost use Rattle.prof_text.specs.Site.{sites_of};
    ghost use Rattle.prof_text.specs.Tally.{Tallies, IsMisfit};
    ghost use Rattle.prof_text.specs.Record.{value_of};

    /// The tally of one record, with these counters and with these targets at its sites. There are fewer than 2^32 of
    /// each. Takes no memory.
    pub fn of(counters: Vec<u64>, sites: Vec<Vec<(&'a [u8], u64)>>) -> Tally<'a>
        requires counters { vec_len counters < 2 ^ 32 }
        requires sites { vec_len sites < 2 ^ 32 }
        ensures { (r : ProfileRecord) → r.counters ≡ counters.items → r.sites ≡ sites_of sites.entry.items → Tallies result (r ∷ []) }
    {
        Tally {
            counters,
            other_counters: None,
            sites,
            other_sites: None,
        }
    }

    /// Makes the tally that of its own records and then those of `more`.
    pub fn join(&mut self, more: &Tally<'a>) -> Result<(), NoMemory>
        ensures { (rs us : List ProfileRecord) → Tallies self.old rs → Tallies more.now us → OnOk result (Tallies self.new (rs ++ us)) }
    {
        let counters = more.counters.as_slice();
        self.other_counters = join_counters(
            &mut self.counters,
            self.other_counters,
            counters,
            more.other_counters,
        );
        let sites = more.sites.as_slice();
        self.other_sites = join_sites(&mut self.sites, self.other_sites, sites, more.other_sites)?;
        Ok(())
    }

    /// Makes the tally that of its own records and then one with these counters and with these targets at its sites. There
    /// are fewer than 2^32 of each.
    pub fn add(&mut self, counters: &[u64], sites: &[Vec<(&'a [u8], u64)>]) -> Result<(), NoMemory>
        requires counters { length counters.now < 2 ^ 32 }
        requires sites { length sites.now < 2 ^ 32 }
        ensures { (rs : List ProfileRecord) (r : ProfileRecord) → r.counters ≡ counters.now → r.sites ≡ sites_of sites.now → Tallies self.old rs → OnOk result (Tallies self.new (rs ++ r ∷ [])) }
    {
        self.other_counters = join_counters(
            &mut self.counters,
            self.other_counters,
            counters,
            None,
        );
        self.other_sites = join_sites(&mut self.sites, self.other_sites, sites, None)?;
        Ok(())
    }

    /// The sum of the tally's records under their name and hash, or why they can't be summed.
    pub fn record(&self, alloc: Global, name: &[u8], hash: u64) -> Result<ProfRecord, MergeError>
        ensures sum { (rs : List ProfileRecord) → Tallies self.now rs → IfOk result (λ r. IsSumOf rs (value_of r)) }
        ensures key { IfOk result (λ r. (r.name ≡ name.now) × (r.hash ≡ hash)) }
        ensures misfit { (rs : List ProfileRecord) → Tallies self.now rs → IfErr result (IsMisfit (name.now, hash) rs) }
    {
        let name = Seq::of(Vec::from_slice(alloc, name)?);
        if let Some(other) = self.other_counters {
            let first = self.counters.len() as u32;
            return Err(MergeError::CounterMismatch {
                name,
                hash,
                first,
                other,
            });
        }
        if let Some(other) = self.other_sites {
            let first = self.sites.len() as u32;
            return Err(MergeError::SiteMismatch {
                name,
                hash,
                first,
                other,
            });
        }
        let counters = Seq::of(Vec::from_slice(alloc, self.counters.as_slice())?);
        let sites = merged_sites(alloc, self.sites.as_slice())?;
        Ok(ProfRecord {
            name,
            hash,
            counters,
            sites,
        })
    }
}
