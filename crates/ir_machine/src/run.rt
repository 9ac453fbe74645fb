// The run of a call on resolved code.
ghost use Rattle.std.specs.Prelude.{◌≡◌, ◌≤◌, List, [], ◌++◌, map, IfOk, OnErr, OnOk};
ghost use Rattle.ir_memory.specs.declared.value.Value.TheVariants as value;
ghost use Rattle.ir_model.specs.declared.probe.Event.{Event};
ghost use Rattle.ir_model.specs.Run.{run_of, result_of, IsValidCall};
ghost use Rattle.ir_code.specs.Images.{memory_of};
ghost use Rattle.ir_code.specs.Units.{counters_of_all, numbered_marks, sites_of_all, tallies_of};
ghost use Rattle.spec_machines.specs.Machine.{shown_of};
ghost use Rattle.ir_machine.specs.Steps.{call_run, first_state, sights, state_of};

use crate::calls::first_registers;
use crate::memories::first_memory;
use crate::program::Code;
use crate::state::{Frame, Machine};
use crate::turns::run_on;
use crate::walks::{Nobody, Watcher};
use ir_code::{FunctionCode, GlobalImage};
use ir_memory::Value;
use ir_model::{Call, CallResult, Probe};
use ir_tree::Seq;
use pgo_base::NoMemory;
use std::alloc::Global;

/// The arguments of a call as values.
fn values(alloc: Global, args: &[u64]) -> Result<Vec<Value>, NoMemory>
    ensures { IfOk result (λ values. values.items ≡ map value.Int args.now) }
{
    let mut values = Vec::with_capacity(alloc, args.len())?;
    for arg in args {
        values.push(Value::Int(*arg))?;
    }
    Ok(values)
}

/// The machine at the start of a function.
pub fn machine_at(
    alloc: Global,
    images: &[GlobalImage],
    number: usize,
    function: &FunctionCode,
    args: &[u64],
) -> Result<Machine, NoMemory>
    ensures { IfOk result (λ m. (state_of m ≡ first_state (memory_of images.now) number function.now args.now) × (m.printed.items ≡ [])) }
{
    let values = values(alloc, args)?;
    let registers = first_registers(Seq::new(alloc), function, values.as_slice())?;
    let memory = first_memory(alloc, images)?;
    let top = Frame {
        function: number,
        block: 0,
        place: 0,
        registers,
        base: memory.next(),
        into: None,
    };
    Ok(Machine {
        top,
        callers: Vec::new(alloc),
        memory,
        printed: Vec::new(alloc),
        moved: values,
        spare: Seq::new(alloc),
    })
}

/// Runs a call as `run_call` does. The watcher is told all that is seen of it behind the entry.
pub fn run_watched<P: Probe, W: Watcher>(
    alloc: Global,
    code: &Code,
    call: &Call,
    steps: u64,
    probe: &mut P,
    watcher: &mut W,
) -> Result<CallResult, NoMemory>
    requires valid { IsValidCall code.now call.now }
    requires counters { counters_of_all (tallies_of code.now) ≤ P.counters probe.old }
    requires sites { sites_of_all (tallies_of code.now) ≤ P.sites probe.old }
    ensures result { IfOk result (λ r. r ≡ result_of (run_of code.now call.now steps)) }
    ensures marks { OnOk result (P.after probe.old (numbered_marks code.now (run_of code.now call.now steps)) probe.new) }
    ensures first_marks { OnErr result ((told rest : List Event) × (numbered_marks code.now (run_of code.now call.now steps) ≡ told ++ rest) × P.after probe.old told probe.new) }
    ensures walks { OnOk result (W.after watcher.old (sights (shown_of (call_run code.now call.now steps))) watcher.new) }
{
    let functions = code.functions();
    let number = call.function as usize;
    let function = &functions[number];
    let args = call.args.as_slice();
    let mut machine = machine_at(alloc, code.images(), number, function, args)?;
    let (counters, sites) = (code.counters(), code.sites());
    let end = run_on(
        functions,
        &mut machine,
        steps,
        counters,
        sites,
        probe,
        watcher,
    )?;
    let Machine { printed, .. } = machine;
    Ok(CallResult {
        printed: Seq::of(printed),
        end,
    })
}

/// Runs a call on the code of a module, for at most `steps` steps: what it prints and how it ends.
/// A step is one instruction or one terminator. The probe is told the marks of the run in order, by
/// the numbers of the tallies; after `NoMemory` it was told a first part of them.
pub fn run_call<P: Probe>(
    alloc: Global,
    code: &Code,
    call: &Call,
    steps: u64,
    probe: &mut P,
) -> Result<CallResult, NoMemory>
    requires valid { IsValidCall code.now call.now }
    requires counters { counters_of_all (tallies_of code.now) ≤ P.counters probe.old }
    requires sites { sites_of_all (tallies_of code.now) ≤ P.sites probe.old }
    ensures result { IfOk result (λ r. r ≡ result_of (run_of code.now call.now steps)) }
    ensures marks { OnOk result (P.after probe.old (numbered_marks code.now (run_of code.now call.now steps)) probe.new) }
    ensures first_marks { OnErr result ((told rest : List Event) × (numbered_marks code.now (run_of code.now call.now steps) ≡ told ++ rest) × P.after probe.old told probe.new) }
{
    run_watched(alloc, code, call, steps, probe, &mut Nobody)
}
