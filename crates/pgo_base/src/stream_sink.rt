// A sink over a writer: the edge to the real outputs.
ghost use Rattle.std.specs.Prelude.{◌≡◌, [], IsSome, unwrap_or};

use crate::writing::write_whole;
use crate::{OutsideError, Sink};
use std::io::Write;

/// A sink over a writer. It tells what its writer tells, and counts its faults up to the last `u64`. A writer that takes
/// nothing of what is left of a piece is at fault.
#[derive(Drop)]
pub struct StreamSink<W: Write + Drop> {
    writer: W,
    faults: u64,
}

impl<W: Write + Drop> StreamSink<W> {
    /// A sink over the writer, without faults.
    pub fn new(writer: W) -> StreamSink<W>
        ensures bytes { ⟦<StreamSink<W> as Sink>⟧.bytes result ≡ unwrap_or (W.contents writer) [] }
        ensures faults { ⟦<StreamSink<W> as Sink>⟧.faults result ≡ 0 }
    {
        StreamSink { writer, faults: 0 }
    }
}

impl<W: Write + Drop> Sink for StreamSink<W> {
    ghost tells = { λ sink. IsSome (W.contents sink.writer) };

    ghost bytes = { λ sink. unwrap_or (W.contents sink.writer) [] };

    ghost faults = { λ sink. sink.faults };

    fn put(&mut self, piece: &[u8]) -> Result<(), OutsideError> {
        if piece.is_empty() || write_whole(&mut self.writer, piece) {
            return Ok(());
        }
        self.faults = self.faults.saturating_add(1);
        Err(OutsideError::Failed)
    }
}
