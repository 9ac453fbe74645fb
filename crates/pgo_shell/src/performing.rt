// One command from its files to its status.
ghost use Rattle.std.specs.Prelude.{◌≡◌, Err};
ghost use Rattle.pgo_shell.specs.Shell.{Causes, Ran, status_of};
ghost use Rattle.pgo_shell.specs.Ended.{Ended};
ghost use Rattle.pgo_shell.specs.Promises.{Promises};
ghost use Rattle.pgo_shell.specs.World.{world};

use crate::delivering::deliver;
use crate::message::{parts_of, say};
use crate::reading::read_all;
use crate::{Command, Refusal, Status, Stop};
use pgo_base::{Gate, Sink, Store};
use std::alloc::Global;
use std::thread::Threads;

/// Reads the files of the command, lets it work on their texts, puts its output and writes its files. It gives the
/// status of the end that this comes to, and puts a line that says why on `err` where that isn't `Done`.
pub fn perform<R: Threads + Sync, C: Command, S: Store, O: Sink, E: Sink, G: Gate + Sync>(
    rt: &R,
    alloc: Global,
    command: &C,
    store: &mut S,
    out: &mut O,
    err: &mut E,
    gate: &G,
) -> Status
    ensures ended { Ended (C.task command.now) (world S.Store O.Sink store.old out.old) (world S.Store O.Sink store.new out.new)
        (E.tells err.old) (E.bytes err.old) (E.bytes err.new) result }
    ensures promises { Promises (C.task command.now) (world S.Store O.Sink store.old out.old) (world S.Store O.Sink store.new out.new) result }
{
    end_of(rt, alloc, command, store, out, err, gate)
}

// The same, with the one end that the command comes to.
fn end_of<R: Threads + Sync, C: Command, S: Store, O: Sink, E: Sink, G: Gate + Sync>(
    rt: &R,
    alloc: Global,
    command: &C,
    store: &mut S,
    out: &mut O,
    err: &mut E,
    gate: &G,
) -> Status
    ensures { Ended (C.task command.now) (world S.Store O.Sink store.old out.old) (world S.Store O.Sink store.new out.new)
        (E.tells err.old) (E.bytes err.old) (E.bytes err.new) result }
{
    match run(rt, alloc, command, store, out, gate) {
        Ok(()) => Status::Done,
        Err(stop) => {
            let (start, end) = parts_of(command, &stop);
            say(err, start, end);
            status_at(&stop)
        }
    }
}

// The command up to its end.
fn run<R: Threads + Sync, C: Command, S: Store, O: Sink, G: Gate + Sync>(
    rt: &R,
    alloc: Global,
    command: &C,
    store: &mut S,
    out: &mut O,
    gate: &G,
) -> Result<(), Stop>
    ensures ran { Ran (C.task command.now) (world S.Store O.Sink store.old out.old) (world S.Store O.Sink store.new out.new) result }
    ensures causes { Causes (C.task command.now) (world S.Store O.Sink store.old out.old) (world S.Store O.Sink store.new out.new) result }
{
    let texts = read_all(alloc, command, store)?;
    match command.product(rt, alloc, &texts, gate) {
        Ok(product) => deliver(command, store, out, product),
        Err(Refusal::Text { line }) => Err(Stop::Refused { line }),
        Err(Refusal::NoMemory) => Err(Stop::NoMemory),
    }
}

// The status of a stop.
fn status_at(stop: &Stop) -> Status
    ensures { result ≡ status_of (Err stop.now) }
{
    match stop {
        Stop::Refused { .. } => Status::Refused,
        Stop::Halted { .. } => Status::NotReturned,
        Stop::Read { .. } | Stop::Output | Stop::Write { .. } => Status::Outside,
        Stop::NoMemory => Status::Memory,
    }
}
