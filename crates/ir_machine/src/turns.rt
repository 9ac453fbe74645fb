// Steps in a row, and who is told what is seen of them.
ghost use Rattle.std.specs.Prelude.{◌≡◌, ◌≤◌, List, [], ◌++◌, IfOk, OnErr, OnOk};
ghost use Rattle.ir_tree.specs.Operands.{listed};
ghost use Rattle.ir_model.specs.declared.probe.Event.{Event};
ghost use Rattle.spec_machines.specs.Machine.{run, shown_of};
ghost use Rattle.ir_machine.specs.Steps.{code_step, events_of, result_from, sights, state_of, turn_end, turn_sights};

use crate::state::{Machine, Sight, Turn};
use crate::step::step;
use crate::walks::{Watcher, tell};
use ir_code::FunctionCode;
use ir_model::{End, Probe};
use pgo_base::NoMemory;

/// The end that a step comes to.
#[inline(always)]
fn end_of(turn: Turn) -> Option<End>
    ensures { result ≡ turn_end turn }
{
    match turn {
        Turn::Goes | Turn::Sees(_) => None,
        Turn::Returns { value, .. } => Some(End::Returned(value)),
        Turn::Traps(kind) => Some(End::Trapped(kind)),
    }
}

/// What is seen of a step.
#[inline(always)]
fn seen(turn: Turn) -> Option<Sight>
    ensures { listed result ≡ turn_sights turn }
{
    match turn {
        Turn::Goes | Turn::Traps(_) => None,
        Turn::Sees(sight) | Turn::Returns { sight, .. } => Some(sight),
    }
}

/// Tells the watcher what is seen of a step, and the probe the mark in it.
#[inline(always)]
fn hear<P: Probe, W: Watcher>(
    turn: Turn,
    counters: u32,
    sites: u32,
    probe: &mut P,
    watcher: &mut W,
) -> Result<(), NoMemory>
    requires counters { counters ≤ P.counters probe.old }
    requires sites { sites ≤ P.sites probe.old }
    ensures marks { OnOk result (P.after probe.old (events_of (turn_sights turn)) probe.new) }
    ensures nothing { OnErr result (P.after probe.old [] probe.new) }
    ensures walks { OnOk result (W.after watcher.old (turn_sights turn) watcher.new) }
    ensures same_counters { P.counters probe.new ≡ P.counters probe.old }
    ensures same_sites { P.sites probe.new ≡ P.sites probe.old }
{
    match seen(turn) {
        Some(sight) => {
            watcher.see(sight);
            tell(probe, counters, sites, sight)
        }
        None => Ok(()),
    }
}

/// Takes at most `steps` steps. The watcher is told all that is seen of them, and the probe the marks.
pub fn run_on<P: Probe, W: Watcher>(
    functions: &[FunctionCode],
    machine: &mut Machine,
    steps: u64,
    counters: u32,
    sites: u32,
    probe: &mut P,
    watcher: &mut W,
) -> Result<End, NoMemory>
    requires counters { counters ≤ P.counters probe.old }
    requires sites { sites ≤ P.sites probe.old }
    ensures result { IfOk result (λ end. record { printed = machine.new.printed.items; end = end } ≡ result_from machine.old.printed.items (run (code_step functions.now) steps (state_of machine.old))) }
    ensures marks { OnOk result (P.after probe.old (events_of (sights (shown_of (run (code_step functions.now) steps (state_of machine.old))))) probe.new) }
    ensures first_marks { OnErr result ((told rest : List Event) × (events_of (sights (shown_of (run (code_step functions.now) steps (state_of machine.old)))) ≡ told ++ rest) × P.after probe.old told probe.new) }
    ensures walks { OnOk result (W.after watcher.old (sights (shown_of (run (code_step functions.now) steps (state_of machine.old)))) watcher.new) }
{
    for _turn in 0..steps {
        let turn = step(functions, machine)?;
        hear(turn, counters, sites, probe, watcher)?;
        match end_of(turn) {
            Some(end) => return Ok(end),
            None => {}
        }
    }
    Ok(End::StepsSpent)
}
