// The calls of a list on several workers.
ghost use Rattle.std.specs.Prelude.{◌≡◌, ◌≤◌, ◌<◌, [], false, length, IfOk, OnOk, OnErr};
ghost use Rattle.ir_model.specs.Run.{IsValidCallList};
ghost use Rattle.ir_code.specs.Units.{counters_of_all, sites_of_all, tallies_of};
ghost use Rattle.ticket_draw.specs.Tickets.{DrewEachOnce};
ghost use Rattle.counted_call.specs.Marks.{CountsGrew};
ghost use Rattle.run_workers.specs.Calls.{results_of, all_marks, AskedAll};
ghost use Rattle.run_workers.specs.Workers.{Stopped, seats};

use crate::drive::drive;
use crate::place::{place_results, places_for};
use counter_table::{CountSeat, CounterTable};
use ir_machine::Code;
use ir_model::{Call, CallResult};
use pgo_base::{Gate, NoMemory};
use std::alloc::Global;
use std::thread::Threads;
use ticket_draw::{TicketDraw, TicketSeat};
use value_rows::{RowSeat, ValueRows};

/// Runs each call for at most `steps` steps, on 1 to 64 workers: place k of the answer has the result
/// of call k, as it is where the call runs alone. Each call is drawn once, and the seats grew by the
/// marks of all calls. Before a worker runs a call it tells the gate, and after it has the result it
/// tells the gate again, with the word that its own seat then reads at counter 0.
///
/// The tickets are fresh, one for each call, and their seat holds all shares; each seat holds a share
/// for each worker. After `NoMemory` the seats hold the shares that they held, and grew by the events
/// of some drawn calls, each in whole or by a first part. Nothing waits.
pub fn run_calls<R: Threads + Sync, G: Gate + Sync>(
    rt: &R,
    alloc: Global,
    code: &Code,
    calls: &[Call],
    steps: u64,
    workers: u32,
    counters: &CounterTable,
    count_seat: &mut CountSeat,
    rows: &ValueRows,
    row_seat: &mut RowSeat,
    tickets: &TicketDraw,
    ticket_seat: &mut TicketSeat,
    gate: &G,
) -> Result<Vec<CallResult>, NoMemory>
    requires workers { (0 < workers) × (workers ≤ 64) }
    requires valid { IsValidCallList code.now calls.now }
    requires counters { counters_of_all (tallies_of code.now) ≤ counters.now.counters }
    requires sites { sites_of_all (tallies_of code.now) ≤ rows.now.sites }
    requires count_seat { (count_seat.old.table ≡ counters.now.id) × (workers ≤ count_seat.old.shares) }
    requires row_seat { (row_seat.old.table ≡ rows.now.id) × (workers ≤ row_seat.old.shares) }
    requires ticket_seat { (ticket_seat.old.table ≡ tickets.now.id) × (workers ≤ ticket_seat.old.shares) × (ticket_seat.old.shares ≡ tickets.now.shares) }
    requires fresh { (tickets.now.numbers ≡ length calls.now) × (ticket_seat.old.drawn ≡ []) × (ticket_seat.old.ended ≡ false) }
    ensures results { IfOk result (λ r. r.items ≡ results_of code.now steps calls.now) }
    ensures counts { OnOk result (CountsGrew (all_marks code.now steps calls.now) count_seat.old count_seat.new) }
    ensures asks { OnOk result (AskedAll (all_marks code.now steps calls.now) row_seat.old row_seat.new) }
    ensures drawn { OnOk result (DrewEachOnce (length calls.now) ticket_seat.new.drawn) }
    ensures ticket_seat { OnOk result ((ticket_seat.new.table ≡ ticket_seat.old.table) × (ticket_seat.new.shares ≡ ticket_seat.old.shares)) }
    ensures stopped { OnErr result (Stopped code.now steps calls.now (seats count_seat.old row_seat.old ticket_seat.old) (seats count_seat.new row_seat.new ticket_seat.new)) }
{
    let mut places = places_for(alloc, calls)?;
    let done = drive(
        rt,
        alloc,
        code,
        calls,
        steps,
        workers,
        counters,
        count_seat,
        rows,
        row_seat,
        tickets,
        ticket_seat,
        gate,
    )?;
    place_results(done, places.as_mut_slice());
    Ok(places)
}
