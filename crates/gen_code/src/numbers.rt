// Numbers of places in a function, each by a block and a place in it.
ghost use Rattle.std.specs.Prelude.{◌≡◌, ℕ, ◌<◌, true, false, None, Some, cond, is_none, length, IfOk, OnOk};
ghost use Rattle.gen_code.specs.Numbered.{number_at, same_place};
ghost use Rattle.gen_code.specs.Tables.{or_else};
ghost use Rattle.gen_plan.specs.Gen.{number_of};
ghost use Rattle.indexmap.specs.IndexMap.{get, IsUnchanged, Updates};

use indexmap::IndexMap;
use indexmap::map::Entry;
use pgo_base::NoMemory;
use std::alloc::Global;

// The first number of each place.
#[derive(Drop)]
pub(crate) struct Numbers {
    numbers: IndexMap<(u64, u64), u32>,
}

impl Numbers {
    pub(crate) fn new(alloc: Global) -> Numbers
        ensures { (b i : ℕ) → number_at result b i ≡ None }
    {
        Numbers {
            numbers: IndexMap::new(alloc),
        }
    }

    // The places of a list by their numbers in it.
    pub(crate) fn of(alloc: Global, places: &[(u32, u64)]) -> Result<Numbers, NoMemory>
        requires { length places.now < 4294967296 }
        ensures { IfOk result (λ made. (b i : ℕ) → number_at made b i ≡ number_of b i places.now) }
    {
        let mut made = Numbers::new(alloc);
        for (number, place) in places.iter().enumerate() {
            made.add((u64::from(place.0), place.1), number as u32)?;
        }
        Ok(made)
    }

    // The number of a place in a block.
    pub(crate) fn find(&self, block: usize, place: usize) -> Option<u32>
        ensures { result ≡ number_at self.now block place }
    {
        self.numbers.get(&(block as u64, place as u64)).copied()
    }

    // Gives a place its number, unless it has one.
    pub(crate) fn add(&mut self, place: (u64, u64), number: u32) -> Result<(), NoMemory>
        ensures { OnOk result ((b i : ℕ) → number_at self.new b i ≡ cond (same_place place (b, i)) (or_else (number_at self.old b i) (Some number)) (number_at self.old b i)) }
    {
        put_first(&mut self.numbers, place, number)?;
        Ok(())
    }
}

// Gives a place its number, unless it has one. Answers whether the place is new. It is one look-up.
fn put_first(
    numbers: &mut IndexMap<(u64, u64), u32>,
    place: (u64, u64),
    number: u32,
) -> Result<bool, NoMemory>
    ensures fresh { IfOk result (λ fresh. fresh ≡ is_none (get same_place numbers.old place)) }
    ensures put { IfOk result (λ fresh. fresh ≡ true → Updates same_place numbers.old numbers.new place (Some number)) }
    ensures kept { IfOk result (λ fresh. fresh ≡ false → IsUnchanged numbers.old numbers.new) }
{
    match numbers.entry(place)? {
        Entry::Occupied(_) => Ok(false),
        Entry::Vacant(slot) => {
            slot.insert(number);
            Ok(true)
        }
    }
}
