// Sinks in memory, for tests.
ghost use Rattle.std.specs.Prelude.{◌≡◌, ◌<◌, ◌++◌, ◌/◌, IfOk, IsErr, IsErrOf, IsOk, IsTrue, [], length, take, ⊤};
ghost use Rattle.pgo_base.specs.Outside.{PutLeaves, RisesBy, Tells};

use crate::{NoMemory, OutsideError, Sink};
use std::alloc::Global;

/// A sink in memory whose puts fail as they are told: those whose numbers, counted from 0 over the pieces that aren't
/// empty, are listed. A listed put appends the first half of its piece. Call number and count of faults stand still at
/// the last `u64`.
#[derive(Debug, Drop)]
pub struct MemorySink {
    bytes: Vec<u8>,
    failing: Vec<u64>,
    calls: u64,
    faults: u64,
}

impl MemorySink {
    ghost use Rattle.pgo_base.specs.Fakes.{next_number, sink_failing, sink_fails, sink_number};

    /// An empty sink. It takes no memory yet.
    pub fn new(alloc: Global, failing: Vec<u64>) -> Result<MemorySink, NoMemory>
        ensures bytes { IfOk result (λ sink. ⟦<MemorySink as Sink>⟧.bytes sink ≡ []) }
        ensures faults { IfOk result (λ sink. ⟦<MemorySink as Sink>⟧.faults sink ≡ 0) }
        ensures failing { IfOk result (λ sink. sink_failing sink ≡ failing.items) }
        ensures number { IfOk result (λ sink. sink_number sink ≡ 0) }
    {
        Ok(MemorySink {
            bytes: Vec::new(alloc),
            failing,
            calls: 0,
            faults: 0,
        })
    }

    /// The bytes that were put.
    pub fn bytes(&self) -> &[u8]
        ensures { result.now ≡ ⟦<MemorySink as Sink>⟧.bytes self.now }
    {
        &self.bytes
    }

    // Counts a call, and says whether it is to fail.
    fn is_failing(&mut self) -> bool
        ensures fails { result ≡ sink_fails self.old }
        ensures number { sink_number self.new ≡ next_number (sink_number self.old) }
        ensures failing { sink_failing self.new ≡ sink_failing self.old }
        ensures bytes { self.new.bytes ≡ self.old.bytes }
        ensures faults { self.new.faults ≡ self.old.faults }
    {
        let call = self.calls;
        self.calls = call.saturating_add(1);
        self.failing.contains(&call)
    }
}

impl Sink for MemorySink {
    ghost use Rattle.pgo_base.specs.Fakes.{next_number, sink_failing, sink_fails, sink_number};

    ghost tells = { λ _. ⊤ };

    ghost bytes = { λ sink. sink.bytes.items };

    ghost faults = { λ sink. sink.faults };

    fn put(&mut self, piece: &[u8]) -> Result<(), OutsideError>
        ensures leaves { Tells ⊤ ⊤ (PutLeaves piece.now self.old.bytes.items self.new.bytes.items result) }
        ensures rises { RisesBy self.old.faults self.new.faults result }
        ensures empty { length piece.now ≡ 0 → IsOk result × (self.new.faults ≡ self.old.faults) × (sink_number self.new ≡ sink_number self.old) }
        ensures listed { 0 < length piece.now → IsTrue (sink_fails self.old) → IsErr result }
        ensures cause { IsErrOf result OutsideError.Failed → IsTrue (sink_fails self.old) }
        ensures half { IsErrOf result OutsideError.Failed → self.new.bytes.items ≡ self.old.bytes.items ++ take (length piece.now / 2) piece.now }
        ensures number { 0 < length piece.now → sink_number self.new ≡ next_number (sink_number self.old) }
        ensures failing { sink_failing self.new ≡ sink_failing self.old }
    {
        if piece.is_empty() {
            return Ok(());
        }
        if self.is_failing() {
            self.bytes.extend_from_slice(&piece[..piece.len() / 2])?;
            self.faults = self.faults.saturating_add(1);
            return Err(OutsideError::Failed);
        }
        self.bytes.extend_from_slice(piece)?;
        Ok(())
    }
}

/// A sink in memory that never fails.
#[derive(Debug, Drop)]
pub struct NeverSink {
    bytes: Vec<u8>,
}

impl NeverSink {
    /// An empty sink. It takes no memory yet.
    pub fn new(alloc: Global) -> Result<NeverSink, NoMemory>
        ensures { IfOk result (λ sink. ⟦<NeverSink as Sink>⟧.bytes sink ≡ []) }
    {
        Ok(NeverSink {
            bytes: Vec::new(alloc),
        })
    }

    /// The bytes that were put.
    pub fn bytes(&self) -> &[u8]
        ensures { result.now ≡ ⟦<NeverSink as Sink>⟧.bytes self.now }
    {
        &self.bytes
    }
}

impl Sink for NeverSink {
    ghost tells = { λ _. ⊤ };

    ghost bytes = { λ sink. sink.bytes.items };

    ghost faults = { λ _. 0 };

    fn put(&mut self, piece: &[u8]) -> Result<(), OutsideError> {
        self.bytes.extend_from_slice(piece)?;
        Ok(())
    }
}
