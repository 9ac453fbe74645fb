// Kinds of module, places in a module, and the quantities that have a limit.

/// What a module is: plain, with calls of LLVM's `llvm.instrprof` intrinsics, or with counters in
/// their place.
#[derive(Clone, Copy, Debug, PartialEq, Eq)]
pub enum Kind {
    Plain,
    Counted,
    Lowered,
}

/// A place in a module, each number counted from 0: the function in the module's list, the block
/// in the function, the item in the block. The terminator comes after all instructions. The head of
/// a function and its parameters are item 0 of block 0, a label is item 0 of its block.
#[derive(Clone, Copy, Debug, PartialEq, Eq)]
pub struct Place {
    pub function: u32,
    pub block: u32,
    pub item: u64,
}

/// The quantities of a module that have a limit.
#[derive(Clone, Copy, Debug, PartialEq, Eq)]
pub enum LimitKind {
    Functions,
    Globals,
    Edges,
    Registers,
    Object,
    Cells,
    Sites,
    Counters,
}
