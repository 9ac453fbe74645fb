// One worker: it draws calls and runs them until none is left.
ghost use Rattle.std.specs.Prelude.{◌≡◌, ◌≤◌, List, ◌++◌, IfOk, OnOk, OnErr};
ghost use Rattle.ir_model.specs.declared.probe.Event.{Event};
ghost use Rattle.ir_model.specs.Run.{IsValidCall};
ghost use Rattle.ir_code.specs.Units.{counters_of_all, sites_of_all, tallies_of};
ghost use Rattle.counted_call.specs.Marks.{CountsGrew, AsksGrew};
ghost use Rattle.run_workers.specs.Calls.{result_alone, marks_alone};
ghost use Rattle.run_workers.specs.Workers.{CanRun, Finished, Stopped, seats, tables};

use counted_call::counted_call;
use counter_table::{CountSeat, CounterTable};
use ir_machine::Code;
use ir_model::{Call, CallResult};
use pgo_base::{Gate, NoMemory};
use std::alloc::Global;
use ticket_draw::{TicketDraw, TicketSeat};
use value_rows::{RowSeat, ValueRows};

/// The word of counter 0, or 0 where the code has no counter.
fn first_counter(code: &Code, counters: &CounterTable, seat: &mut CountSeat) -> u64
    requires seat { seat.old.table ≡ counters.now.id }
    requires counters { counters_of_all (tallies_of code.now) ≤ counters.now.counters }
    ensures { seat.new ≡ seat.old }
{
    if code.counters() == 0 {
        return 0;
    }
    counters.read(seat, 0)
}

/// One call, counted, of which the gate is told before and after.
fn gated_call<G: Gate>(
    alloc: Global,
    code: &Code,
    number: u32,
    call: &Call,
    steps: u64,
    counters: &CounterTable,
    count_seat: &mut CountSeat,
    rows: &ValueRows,
    row_seat: &mut RowSeat,
    gate: &G,
) -> Result<CallResult, NoMemory>
    requires valid { IsValidCall code.now call.now }
    requires count_seat { count_seat.old.table ≡ counters.now.id }
    requires row_seat { row_seat.old.table ≡ rows.now.id }
    requires counters { counters_of_all (tallies_of code.now) ≤ counters.now.counters }
    requires sites { sites_of_all (tallies_of code.now) ≤ rows.now.sites }
    ensures result { IfOk result (λ r. r ≡ result_alone code.now steps call.now) }
    ensures counts { OnOk result (CountsGrew (marks_alone code.now steps call.now) count_seat.old count_seat.new) }
    ensures asks { OnOk result (AsksGrew (marks_alone code.now steps call.now) row_seat.old row_seat.new) }
    ensures first_marks { OnErr result ((told rest : List Event) × (marks_alone code.now steps call.now ≡ told ++ rest) × CountsGrew told count_seat.old count_seat.new × AsksGrew told row_seat.old row_seat.new) }
{
    gate.before(number);
    let result = counted_call(
        alloc, code, call, steps, counters, count_seat, rows, row_seat,
    )?;
    gate.ended(number, first_counter(code, counters, count_seat));
    Ok(result)
}

/// Draws calls and runs them until none is left: the number of each, with its result.
pub(crate) fn work<G: Gate>(
    alloc: Global,
    code: &Code,
    calls: &[Call],
    steps: u64,
    counters: &CounterTable,
    count_seat: &mut CountSeat,
    rows: &ValueRows,
    row_seat: &mut RowSeat,
    tickets: &TicketDraw,
    ticket_seat: &mut TicketSeat,
    gate: &G,
) -> Result<Vec<(u32, CallResult)>, NoMemory>
    requires { CanRun code.now calls.now (tables counters.now rows.now tickets.now) 1 (seats count_seat.old row_seat.old ticket_seat.old) }
    ensures done { IfOk result (λ done. Finished code.now steps calls.now tickets.now.shares done.items (seats count_seat.old row_seat.old ticket_seat.old) (seats count_seat.new row_seat.new ticket_seat.new)) }
    ensures stopped { OnErr result (Stopped code.now steps calls.now (seats count_seat.old row_seat.old ticket_seat.old) (seats count_seat.new row_seat.new ticket_seat.new)) }
{
    let mut done = Vec::new(alloc);
    while let Some(number) = tickets.draw(ticket_seat) {
        let call = &calls[number as usize];
        let result = gated_call(
            alloc, code, number, call, steps, counters, count_seat, rows, row_seat, gate,
        )?;
        done.push((number, result))?;
    }
    Ok(done)
}
