// The blocks that give what is used, each with a number, so that 64 of them are looked at together.
ghost use Rattle.std.specs.Prelude.{◌≡◌, ◌<◌, ◌≤◌, ◌++◌, List, All, true, IfOk, OnOk, Some, length, map, slice_get};
ghost use Rattle.definite_assignment.specs.Uses.{AreTagged, Grows, is_for};

use pgo_base::NoMemory;
use std::alloc::Global;

/// A use in block `at` of what block `giver` gives.
#[derive(Clone, Copy, Debug, PartialEq, Eq)]
pub struct Use {
    pub giver: u32,
    pub at: u32,
}

/// A use, and the number of the block that gives what is used.
#[derive(Clone, Copy)]
pub(crate) struct Tagged {
    pub(crate) giver: u32,
    pub(crate) at: u32,
    pub(crate) slot: usize,
}

/// The blocks that give, by their numbers, and the uses with these numbers.
#[derive(Drop)]
pub(crate) struct Numbered {
    pub(crate) givers: Vec<u32>,
    pub(crate) tagged: Vec<Tagged>,
}

/// Numbers the blocks that these uses name, of so many blocks. Each look-up is a test of one number.
pub(crate) fn number_givers(alloc: Global, count: usize, uses: &[Use]) -> Result<Numbered, NoMemory>
    requires { All (λ u. u.giver < count) uses.now }
    ensures uses { IfOk result (λ n. map is_for n.tagged.items ≡ uses.now) }
    ensures tagged { IfOk result (λ n. AreTagged n.givers.items n.tagged.items) }
    ensures within { IfOk result (λ n. All (λ g. g < count) n.givers.items) }
{
    let mut slots = vec![in alloc; 0usize; count]?;
    number_in(alloc, slots.as_mut_slice(), uses)
}

fn number_in(alloc: Global, slots: &mut [usize], uses: &[Use]) -> Result<Numbered, NoMemory>
    requires { All (λ u. u.giver < length slots.old) uses.now }
    ensures uses { IfOk result (λ n. map is_for n.tagged.items ≡ uses.now) }
    ensures tagged { IfOk result (λ n. AreTagged n.givers.items n.tagged.items) }
    ensures within { IfOk result (λ n. All (λ g. g < length slots.old) n.givers.items) }
{
    let mut givers = Vec::new(alloc);
    let mut tagged = Vec::with_capacity(alloc, uses.len())?;
    for u in uses {
        let slot = slot_for(slots, &mut givers, u.giver)?;
        tagged.push(Tagged {
            giver: u.giver,
            at: u.at,
            slot,
        })?;
    }
    Ok(Numbered { givers, tagged })
}

// The number of a block, which is the next one where it has none. What stands in `slots` is believed only where the list confirms it.
fn slot_for(slots: &mut [usize], givers: &mut Vec<u32>, giver: u32) -> Result<usize, NoMemory>
    requires { giver < length slots.old }
    ensures at { IfOk result (λ slot. slice_get givers.new.items slot ≡ Some giver) }
    ensures grown { OnOk result (Grows giver givers.old.items givers.new.items) }
{
    let known = slots[giver as usize];
    if is_at(givers.as_slice(), known, giver) {
        return Ok(known);
    }
    let next = givers.len();
    givers.push(giver)?;
    slots[giver as usize] = next;
    Ok(next)
}

fn is_at(givers: &[u32], slot: usize, giver: u32) -> bool
    ensures { result ≡ true → slice_get givers.now slot ≡ Some giver }
{
    match givers.get(slot) {
        Some(found) => *found == giver,
        None => false,
    }
}
