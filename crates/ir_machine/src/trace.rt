// The run of a call, with the walks of every edge counted.
ghost use Rattle.std.specs.Prelude.{◌≡◌, ℕ, ◌+◌, ◌^◌, ◌<◌, ◌≤◌, Option, length, get_or, slice_get, IfOk, OnOk};
ghost use Rattle.ir_model.specs.Run.{run_of, result_of, IsValidCall};
ghost use Rattle.ir_model.specs.Log.{traversals};
ghost use Rattle.ir_code.specs.Units.{counters_of_all, sites_of_all, tallies_of};
ghost use Rattle.ir_machine.specs.Counts.{call_counts, raised, raised_by, raised_way};
ghost use Rattle.ir_machine.specs.Slots.{edges_of_all, slot_of, HasEdge};

use crate::program::Code;
use crate::run::run_watched;
use crate::slots::FunctionSlots;
use crate::state::Sight;
use crate::walks::Watcher;
use ir_model::{Call, CallResult, QuietProbe};
use pgo_base::NoMemory;
use std::alloc::Global;

/// Counts of edges by their slots, which rise as edges are walked.
#[derive(Drop)]
struct EdgeCounts<'s, 'c> {
    slots: &'s [FunctionSlots],
    counts: &'c mut [u64],
}

impl Watcher for EdgeCounts<'_, '_> {
    ghost use Rattle.std.specs.Prelude.{◌≡◌, refl};
    ghost use Rattle.std.proofs.Common.{◌∙◌, ap, sym};
    ghost use Rattle.ir_machine.specs.Counts.{counted, counted-append};

    ghost after = { λ a ss b. (b.slots.now ≡ a.slots.now) × (b.counts.now ≡ counted a.slots.now a.counts.now ss) × (b.counts.ghost_name ≡ a.counts.ghost_name) };

    fn see(&mut self, sight: Sight) {
        raise_by(self.slots, self.counts, sight);
    }

    ghost none = { λ a. (refl, refl, refl) };

    ghost more = { λ a b c xs ys h g. (g.0 ∙ h.0, g.1 ∙ (λ i. counted (h.0 i) (h.1 i) ys) ∙ sym (counted-append a.slots.now a.counts.now xs ys), g.2 ∙ h.2) };
}

/// Raises the count at a slot, which stays as it is at the highest number.
fn raise(counts: &mut [u64], slot: usize)
    ensures { counts.new ≡ raised counts.old slot }
{
    if slot < counts.len() {
        counts[slot] = counts[slot].saturating_add(1);
    }
}

/// Raises the count of the edge out of a block.
fn raise_out(counts: &mut [u64], slots: &FunctionSlots, block: usize, position: usize)
    ensures { counts.new ≡ raised_way counts.old position (slice_get slots.now.blocks block) }
{
    if let Some(start) = slots.blocks.as_slice().get(block) {
        if let Some(slot) = position.checked_add(*start as usize) {
            raise(counts, slot);
        }
    }
}

/// Raises the count of the edge that is seen, if it is one.
fn raise_by(slots: &[FunctionSlots], counts: &mut [u64], sight: Sight)
    ensures { counts.new ≡ raised_by slots.now counts.old sight }
{
    match sight {
        Sight::Entered { function } => {
            if let Some(slots) = slots.get(function) {
                raise(counts, slots.entry as usize);
            }
        }
        Sight::Left {
            function,
            block,
            position,
        } => {
            if let Some(slots) = slots.get(function) {
                raise_out(counts, slots, block, position);
            }
        }
        Sight::Added { .. } | Sight::Noted { .. } => {}
    }
}

/// Runs a call, and counts what is seen of it.
fn count_call(
    alloc: Global,
    code: &Code,
    call: &Call,
    steps: u64,
    counts: &mut [u64],
) -> Result<CallResult, NoMemory>
    requires { IsValidCall code.now call.now }
    ensures result { IfOk result (λ r. r ≡ result_of (run_of code.now call.now steps)) }
    ensures counts { OnOk result (counts.new ≡ call_counts code.now call.now steps counts.old) }
{
    code.has_few_marks();
    let mut watcher = EdgeCounts {
        slots: code.slots(),
        counts,
    };
    watcher.see(Sight::Entered {
        function: call.function as usize,
    });
    run_watched(alloc, code, call, steps, &mut QuietProbe, &mut watcher)
}

/// Runs a call as `run_call` does, and raises the count of each edge, at its slot, by the number of
/// times that the run walks it. No count rises by more than `steps` and one. After `NoMemory` the
/// counts are open.
pub fn trace_call(
    alloc: Global,
    code: &Code,
    call: &Call,
    steps: u64,
    counts: &mut [u64],
) -> Result<CallResult, NoMemory>
    requires valid { IsValidCall code.now call.now }
    requires all { length counts.old ≡ edges_of_all code.now }
    requires low { (slot : ℕ) → get_or counts.old slot 0 < 2 ^ 60 }
    requires few { steps < 2 ^ 60 }
    ensures result { IfOk result (λ r. r ≡ result_of (run_of code.now call.now steps)) }
    ensures counts { OnOk result ((function : ℕ) (block : Option ℕ) (position : ℕ) → HasEdge code.now function block position → get_or counts.new (slot_of code.now function block position) 0 ≡ get_or counts.old (slot_of code.now function block position) 0 + traversals code.now function block position call.now steps) }
    ensures growth { OnOk result ((slot : ℕ) → get_or counts.new slot 0 ≤ get_or counts.old slot 0 + steps + 1) }
{
    count_call(alloc, code, call, steps, counts)
}
