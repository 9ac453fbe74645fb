// What the names of a module stand for.
ghost use Rattle.std.specs.Prelude.{◌≡◌, IfOk};
ghost use Rattle.ir_code.specs.Found.{symbol_in, value_in, tally_in, counters_of, sites_of};
ghost use Rattle.std.specs.Option.{option_copied};

use crate::code::{Input, Span};
use ir_memory::{Base, Value};
use ir_model::Tally;
use ir_tree::{Index, Name, Seq};
use pgo_base::NoMemory;

/// The numbers of a module's functions, objects and units by their names, and what is counted of the units.
#[derive(Drop)]
pub struct Symbols {
    pub functions: Index,
    pub objects: Index,
    pub units: Index,
    pub tallies: Seq<Tally>,
}

/// A number as one of 32 bits.
fn short(number: usize) -> Result<u32, NoMemory>
    ensures { IfOk result (λ n. n ≡ number) }
{
    match u32::try_from(number) {
        Ok(number) => Ok(number),
        // No accepted module has so many functions or objects.
        Err(_) => Err(NoMemory),
    }
}

impl Symbols {
    /// The address that a name stands for.
    pub fn input(&self, name: &Name) -> Result<Input, NoMemory>
        ensures { IfOk result (λ input. input ≡ symbol_in self.now name.now) }
    {
        match self.functions.find(name.bytes()) {
            Some(function) => Ok(Input::Function(short(function)?)),
            None => match self.objects.find(name.bytes()) {
                Some(object) => Ok(Input::Object(object as u64)),
                None => Ok(Input::Null),
            },
        }
    }

    /// The same as a value.
    pub fn value(&self, name: &Name) -> Result<Value, NoMemory>
        ensures { IfOk result (λ value. value ≡ value_in self.now name.now) }
    {
        let base = match self.functions.find(name.bytes()) {
            Some(function) => Base::Function(short(function)?),
            None => match self.objects.find(name.bytes()) {
                Some(object) => Base::Object(object as u64),
                None => Base::Null,
            },
        };
        Ok(Value::Pointer { base, offset: 0 })
    }

    fn tally(&self, unit: &[u8]) -> Option<&Tally>
        ensures { option_copied result ≡ tally_in self.now unit.now }
    {
        match self.units.find(unit) {
            Some(place) => self.tallies.as_slice().get(place),
            None => None,
        }
    }

    /// The counters of a unit.
    pub fn counters(&self, unit: &[u8]) -> Span
        ensures { result ≡ counters_of self.now unit.now }
    {
        match self.tally(unit) {
            Some(tally) => Span {
                first: tally.first_counter,
                count: tally.counters,
            },
            None => Span { first: 0, count: 0 },
        }
    }

    /// The sites of a unit.
    pub fn sites(&self, unit: &[u8]) -> Span
        ensures { result ≡ sites_of self.now unit.now }
    {
        match self.tally(unit) {
            Some(tally) => Span {
                first: tally.first_site,
                count: tally.sites,
            },
            None => Span { first: 0, count: 0 },
        }
    }
}
