// What calls tell of a unit, one call after the other.
ghost use Rattle.std.specs.Prelude.{◌≡◌, max};
ghost use Rattle.ir_rules.specs.Limits.{reported};
ghost use Rattle.lower_units.specs.Shown as shown;
ghost use Rattle.lower_units.specs.Told as spec;
ghost use Rattle.lowering.specs.Units as units;

use crate::asked::Asked;

// The hash of the first call and the number of counters of the first increment that name a unit, and one more than the greatest
// site, which stands still at the end of its type.
#[derive(Clone, Copy)]
pub(crate) struct Told {
    pub(crate) hash: u64,
    pub(crate) counters: Option<u64>,
    pub(crate) sites: u64,
}

fn counters_asked(asked: &Asked<'_>) -> Option<u64>
    ensures { result ≡ units.counters_asked (shown.asked asked.now) }
{
    match asked {
        Asked::Rise { counters, .. } => Some(*counters),
        Asked::Note { .. } => None,
    }
}

fn sites_asked(asked: &Asked<'_>) -> u64
    ensures { result ≡ reported (units.sites_asked (shown.asked asked.now)) }
{
    match asked {
        Asked::Rise { .. } => 0,
        Asked::Note { site, .. } => site.saturating_add(1),
    }
}

fn or_else(number: Option<u64>, other: Option<u64>) -> Option<u64>
    ensures { result ≡ spec.or_else number other }
{
    match number {
        Some(number) => Some(number),
        None => other,
    }
}

fn greater(a: u64, b: u64) -> u64
    ensures { result ≡ max a b }
{
    if a < b { b } else { a }
}

impl Told {
    // What the first call tells.
    pub(crate) fn first(asked: &Asked<'_>) -> Told
        ensures { result ≡ spec.first_told (shown.asked asked.now) }
    {
        Told {
            hash: asked.hash(),
            counters: counters_asked(asked),
            sites: sites_asked(asked),
        }
    }

    // What one more call tells too.
    pub(crate) fn with(self, asked: &Asked<'_>) -> Told
        ensures { result ≡ spec.also_told self (shown.asked asked.now) }
    {
        Told {
            hash: self.hash,
            counters: or_else(self.counters, counters_asked(asked)),
            sites: greater(self.sites, sites_asked(asked)),
        }
    }
}
