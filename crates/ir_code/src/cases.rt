// The cases of a switch.
ghost use Rattle.std.specs.Prelude.{◌≡◌, ◌==◌, ℕ, Some, None, cond, is_some, position, OnOk, IfOk};
ghost use Rattle.std.specs.BTreeMap as tree;
ghost use Rattle.std.specs.Ordering.{nat_cmp};

use crate::SCANNED_MOST;
use ir_tree::Seq;
use pgo_base::NoMemory;
use std::alloc::Global;
use std::collections::BTreeMap;
use std::marker::Model;

/// The values of a switch's cases in order. The first case of a value is found in steps of the logarithm of their number.
/// Contracts see the values.
#[derive(Debug, Drop)]
pub struct Cases {
    values: Seq<u64>,
    // the first place of each value, where there are more than are looked through
    places: BTreeMap<u64, usize>,
}

impl Model for Cases {
    ghost use Rattle.std.specs.Prelude.{◌≡◌, ◌==◌, ◌<◌, ℕ, List, length, position};
    ghost use Rattle.std.specs.BTreeMap as tree;
    ghost use Rattle.std.specs.Ordering.{nat_cmp};
    ghost use Rattle.ir_code.specs.declared.TheConstants.{SCANNED_MOST};

    ghost Value = { List ℕ };

    ghost view = { λ c. c.values };

    ghost invariant = { λ c. SCANNED_MOST < length c.values → (n : ℕ) → tree.get nat_cmp c.places n ≡ position (λ v. v == n) c.values };
}

/// Gives a value its place, unless it has one.
fn add_place(places: &mut BTreeMap<u64, usize>, value: u64, place: usize) -> Result<(), NoMemory>
    ensures { OnOk result ((n : ℕ) → tree.get nat_cmp places.new n ≡ cond (is_some (tree.get nat_cmp places.old n)) (tree.get nat_cmp places.old n) (cond (value == n) (Some place) None)) }
{
    if places.get(&value).is_none() {
        places.insert(value, place)?;
    }
    Ok(())
}

/// The first place of each value.
fn first_places(alloc: Global, values: &[u64]) -> Result<BTreeMap<u64, usize>, NoMemory>
    ensures { IfOk result (λ places. (n : ℕ) → tree.get nat_cmp places n ≡ position (λ v. v == n) values.now) }
{
    let mut places = BTreeMap::new(alloc);
    for (i, value) in values.iter().enumerate() {
        add_place(&mut places, *value, i)?;
    }
    Ok(places)
}

impl Cases {
    /// The cases with these values.
    pub fn of(alloc: Global, values: Vec<u64>) -> Result<Cases, NoMemory>
        ensures { IfOk result (λ cases. cases ≡ values.items) }
    {
        let places = if values.len() <= SCANNED_MOST {
            BTreeMap::new(alloc)
        } else {
            first_places(alloc, values.as_slice())?
        };
        Ok(Cases {
            values: Seq::of(values),
            places,
        })
    }

    /// The place of the first case with a number.
    pub fn place(&self, number: u64) -> Option<usize>
        ensures { result ≡ position (λ v. v == number) self.now }
    {
        if self.values.len() <= SCANNED_MOST {
            self.values
                .as_slice()
                .iter()
                .position(|value| *value == number)
        } else {
            self.places.get(&number).copied()
        }
    }
}
