// Records that are gathered by their keys.
ghost use Rattle.std.specs.Prelude.{◌≡◌, ◌<◌, ◌^◌, ℕ, List, [], ◌∷◌, ◌++◌, length, slice_get, vec_len, Some, None, IfSome, IfNone, OnOk, IfOk, IfErr};
ghost use Rattle.std.specs.Borrow.{Bor};
ghost use Rattle.std.specs.List.Sorted.{IsSorted};
ghost use Rattle.indexmap.specs.IndexMap.{get_by, index_map_len, keys};
ghost use Rattle.prof_view.specs.Profile.{ProfileRecord};
ghost use Rattle.prof_text.specs.Merged.{Key, of_key, IsMerged};
ghost use Rattle.prof_text.specs.Mismatch.{IsMismatch};
ghost use Rattle.prof_text.specs.Record.{values_of};
ghost use Rattle.prof_text.specs.Tally.{Tallies};
ghost use Rattle.prof_text.specs.Site.{sites_of};
ghost use Rattle.prof_text.specs.declared.tally.Tally as spec;
ghost use Rattle.prof_text.specs.Gathered.{Gathers, GathersIn, borrowed_key_cmp, is_key, plain_key, with_records};

use crate::error::MergeError;
use crate::profile::Profile;
use crate::record::ProfRecord;
use crate::tally::Tally;
use indexmap::IndexMap;
use pgo_base::NoMemory;
use std::alloc::Global;

/// Records that are gathered by their keys: for each key the tally of its records, in the order in which they came.
#[derive(Debug, Drop)]
pub struct Gathered<'a> {
    tallies: IndexMap<(&'a [u8], u64), Tally<'a>>,
    // Where the next record's key is looked for first: behind that of the last record, since the profiles of one program
    // list the same functions in the same order.
    next: usize,
}

impl<'a> Gathered<'a> {
    /// No records. Takes no memory.
    pub fn new(alloc: Global) -> Gathered<'a>
        ensures { Gathers result (λ _. []) }
    {
        Gathered {
            tallies: IndexMap::new(alloc),
            next: 0,
        }
    }

    // The place of a key, where it has one.
    fn place_of(&self, key: (&'a [u8], u64)) -> Option<usize>
        ensures within { IfSome result (λ place. place < index_map_len self.now.tallies) }
        ensures found { IfSome result (λ place. (k : Bor (List ℕ) × ℕ) × (t : spec.Tally) × (slice_get self.now.tallies.entries place ≡ Some (k, t)) × (plain_key k ≡ plain_key key.entry)) }
        ensures none { IfNone result (get_by (is_key (plain_key key.entry)) self.now.tallies ≡ None) }
    {
        if let Some((next, _)) = self.tallies.get_index(self.next) {
            if *next == key {
                return Some(self.next);
            }
        }
        match self.tallies.get_full(&key) {
            Some((place, _, _)) => Some(place),
            None => None,
        }
    }

    // Puts the tallied records of a key that has none yet.
    fn put_first(&mut self, key: (&'a [u8], u64), tally: Tally<'a>) -> Result<(), NoMemory>
        requires { get_by (is_key (plain_key key)) self.old.tallies ≡ None }
        ensures { (f : Key → List ProfileRecord) (rs : List ProfileRecord) → Gathers self.old f → Tallies tally.entry rs → OnOk result (Gathers self.new (with_records f (plain_key key.entry) rs)) }
    {
        self.tallies.insert(key, tally)?;
        self.next = self.tallies.len();
        Ok(())
    }

    /// Puts the tallied records of one key behind those that the key has.
    pub fn put(&mut self, name: &'a [u8], hash: u64, tally: Tally<'a>) -> Result<(), NoMemory>
        ensures { (f : Key → List ProfileRecord) (rs : List ProfileRecord) → Gathers self.old f → Tallies tally.entry rs → OnOk result (Gathers self.new (with_records f (name.entry.now, hash) rs)) }
    {
        let key = (name, hash);
        match self.place_of(key) {
            Some(place) => {
                self.next = place.saturating_add(1);
                let (_, sum) = self.tallies.pair_mut(place);
                sum.join(&tally)
            }
            None => self.put_first(key, tally),
        }
    }

    /// Puts one record behind those that its key has: its counters, and the targets at each of its sites. There are
    /// fewer than 2^32 of each. Takes memory only where the key is new, or has sites.
    pub fn add(
        &mut self,
        alloc: Global,
        name: &'a [u8],
        hash: u64,
        counters: &[u64],
        sites: Vec<Vec<(&'a [u8], u64)>>,
    ) -> Result<(), NoMemory>
        requires counters { length counters.now < 2 ^ 32 }
        requires sites { vec_len sites < 2 ^ 32 }
        ensures { (f : Key → List ProfileRecord) (r : ProfileRecord) → r.counters ≡ counters.now → r.sites ≡ sites_of sites.entry.items → Gathers self.old f → OnOk result (Gathers self.new (with_records f (name.entry.now, hash) (r ∷ []))) }
    {
        let key = (name, hash);
        match self.place_of(key) {
            Some(place) => {
                self.next = place.saturating_add(1);
                let (_, sum) = self.tallies.pair_mut(place);
                sum.add(counters, sites.as_slice())
            }
            None => {
                let counters = Vec::from_slice(alloc, counters)?;
                self.put_first(key, Tally::of(counters, sites))
            }
        }
    }

    /// Puts the records of `more` behind its own, key by key.
    pub fn absorb(&mut self, more: Gathered<'a>) -> Result<(), NoMemory>
        ensures { (f g : Key → List ProfileRecord) → Gathers self.old f → Gathers more.entry g → OnOk result (Gathers self.new (λ key. f key ++ g key)) }
    {
        for ((name, hash), tally) in more.tallies {
            self.put(name, hash, tally)?;
        }
        Ok(())
    }

    // The merged records, by name and then hash, or why they can't be merged.
    fn records(mut self, alloc: Global) -> Result<Vec<ProfRecord>, MergeError>
        ensures merged { (records : List ProfileRecord) → Gathers self.entry (λ key. of_key key records) → IfOk result (λ v. IsMerged records (values_of v.items)) }
        ensures refused { (records : List ProfileRecord) → Gathers self.entry (λ key. of_key key records) → IfErr result (IsMismatch records) }
    {
        self.tallies.sort_keys()?;
        records_of(alloc, self.tallies)
    }

    /// The profile with the merged records, by name and then hash, or why they can't be merged: the least key whose
    /// records differ in their numbers of counters, or else of sites. Never answers `HeaderMismatch`.
    pub fn finish(self, alloc: Global, entry_first: bool) -> Result<Profile, MergeError>
        ensures merged { (records : List ProfileRecord) → Gathers self.entry (λ key. of_key key records) → IfOk result (λ p. (p.entry_first ≡ entry_first) × IsMerged records p.records) }
        ensures refused { (records : List ProfileRecord) → Gathers self.entry (λ key. of_key key records) → IfErr result (IsMismatch records) }
    {
        match self.records(alloc) {
            Ok(records) => Ok(Profile::of(records, entry_first)),
            Err(error) => Err(error),
        }
    }
}

// The record of each tally of keys that rise, or why the first tally that has none has none.
fn records_of(
    alloc: Global,
    tallies: IndexMap<(&[u8], u64), Tally<'_>>,
) -> Result<Vec<ProfRecord>, MergeError>
    requires { IsSorted borrowed_key_cmp (keys tallies) }
    ensures merged { (records : List ProfileRecord) → GathersIn tallies.entry (λ key. of_key key records) → IfOk result (λ v. IsMerged records (values_of v.items)) }
    ensures refused { (records : List ProfileRecord) → GathersIn tallies.entry (λ key. of_key key records) → IfErr result (IsMismatch records) }
{
    let mut records = Vec::new(alloc);
    for ((name, hash), tally) in tallies {
        match tally.record(alloc, name, hash) {
            Ok(record) => records.push(record)?,
            Err(error) => return Err(error),
        }
    }
    Ok(records)
}
