// What is told of calls as they run.

/// A watcher of calls: it is told before a call runs and when it has its result. It promises nothing.
pub trait Gate {
    /// Call number `call` is about to run.
    fn before(&self, call: u32);

    /// Call number `call` has its result, and its worker then read `word` in counter 0.
    fn ended(&self, call: u32, word: u64);
}

/// The gate of the program: it does nothing.
#[derive(Clone, Copy, Debug, Drop)]
pub struct QuietGate;

impl Gate for QuietGate {
    fn before(&self, _call: u32) {}

    fn ended(&self, _call: u32, _word: u64) {}
}
