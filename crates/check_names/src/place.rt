// Places, and the first of two.
ghost use Rattle.std.specs.Prelude.{◌≡◌, ◌<◌, ◌^◌, List, ◌++◌};
ghost use Rattle.ir_rules.specs.Parts as spec;
ghost use Rattle.ir_rules.specs.declared.place.Place.{Place};
ghost use Rattle.spec_lists.specs.Each.{first_of};

use ir_rules::Place;

/// The place of a global variable.
pub(crate) fn variable_place(n: usize) -> Place
    ensures { result ≡ spec.place 0 0 n }
{
    Place {
        function: 0,
        block: 0,
        item: n as u64,
    }
}

/// The place of an item of a function.
pub(crate) fn item_place(k: usize, b: usize, i: usize) -> Place
    requires function { k < 2 ^ 32 }
    requires block { b < 2 ^ 32 }
    ensures { result ≡ spec.place k b i }
{
    Place {
        function: k as u32,
        block: b as u32,
        item: i as u64,
    }
}

/// The place, unless the rule is kept there.
pub(crate) fn unless(kept: bool, at: Place) -> Option<Place>
    ensures { result ≡ first_of (spec.unless kept at) }
{
    if kept { None } else { Some(at) }
}

/// The first of two lists of places, by the first of each.
pub(crate) fn first_of_both(first: Option<Place>, second: Option<Place>) -> Option<Place>
    ensures { (xs : List Place) (ys : List Place) → first ≡ first_of xs → second ≡ first_of ys → result ≡ first_of (xs ++ ys) }
{
    match first {
        Some(at) => Some(at),
        None => second,
    }
}
