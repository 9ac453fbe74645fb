// One call, counted.
ghost use Rattle.std.specs.Prelude.{◌≡◌, ◌≤◌, List, ◌++◌, IfOk, OnOk, OnErr};
ghost use Rattle.ir_model.specs.declared.probe.Event.{Event};
ghost use Rattle.ir_model.specs.Run.{run_of, result_of, IsValidCall};
ghost use Rattle.ir_code.specs.Units.{counters_of_all, numbered_marks, sites_of_all, tallies_of};
ghost use Rattle.counted_call.specs.Marks.{CountsGrew, AsksGrew};

use crate::probe::TableProbe;
use counter_table::{CountSeat, CounterTable};
use ir_machine::{Code, run_call};
use ir_model::{Call, CallResult};
use pgo_base::NoMemory;
use std::alloc::Global;
use value_rows::{RowSeat, ValueRows};

/// Runs a call for at most `steps` steps, and tells the marks of the run to the shared tables: the
/// result is that of the call alone, and the seats grew by the marks, each a part of the run that
/// its own worker made. After `NoMemory` they grew by a first part of the marks.
pub fn counted_call(
    alloc: Global,
    code: &Code,
    call: &Call,
    steps: u64,
    counters: &CounterTable,
    count_seat: &mut CountSeat,
    rows: &ValueRows,
    row_seat: &mut RowSeat,
) -> Result<CallResult, NoMemory>
    requires valid { IsValidCall code.now call.now }
    requires count_seat { count_seat.old.table ≡ counters.now.id }
    requires row_seat { row_seat.old.table ≡ rows.now.id }
    requires counters { counters_of_all (tallies_of code.now) ≤ counters.now.counters }
    requires sites { sites_of_all (tallies_of code.now) ≤ rows.now.sites }
    ensures result { IfOk result (λ r. r ≡ result_of (run_of code.now call.now steps)) }
    ensures counts { OnOk result (CountsGrew (numbered_marks code.now (run_of code.now call.now steps)) count_seat.old count_seat.new) }
    ensures asks { OnOk result (AsksGrew (numbered_marks code.now (run_of code.now call.now steps)) row_seat.old row_seat.new) }
    ensures first_marks { OnErr result ((told rest : List Event) × (numbered_marks code.now (run_of code.now call.now steps) ≡ told ++ rest) × CountsGrew told count_seat.old count_seat.new × AsksGrew told row_seat.old row_seat.new) }
{
    let mut probe = TableProbe {
        counters,
        count_seat,
        rows,
        row_seat,
    };
    run_call(alloc, code, call, steps, &mut probe)
}
