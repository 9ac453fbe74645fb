//! What the whole project stands on: files, outputs and gates as traits, with fakes for tests, and the name hash.
#![tactic(auto)]

mod errors;
mod file_store;
mod gate;
mod hash;
mod memory_sink;
mod memory_store;
mod shelf;
mod sink;
mod store;
mod stream_sink;
mod writing;

pub use errors::{NoMemory, OutsideError};
pub use file_store::FileStore;
pub use gate::{Gate, QuietGate};
pub use hash::hash8;
pub use memory_sink::{MemorySink, NeverSink};
pub use memory_store::{MemoryStore, NeverStore};
pub use sink::Sink;
pub use store::{READ_MOST, Store};
pub use stream_sink::StreamSink;

#[cfg(test)]
mod tests;
