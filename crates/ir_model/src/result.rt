// Calls and what they come to.
use ir_tree::Seq;

/// Why a call ended without returning.
#[derive(Clone, Copy, Debug, PartialEq, Eq)]
pub enum TrapKind {
    /// A division or remainder by 0.
    DivZero,
    /// A signed division or remainder of the least number by -1.
    DivOverflow,
    /// A load or store outside a live object, or a store to a constant.
    Access,
    /// A pointer loaded from cells that hold no pointer.
    BadPointer,
    /// A call of an address at which no function of that signature is.
    Callee,
    /// A call of a declared function that has no work to do here.
    External,
    /// A call with 512 functions running.
    Depth,
    /// More than 1,048,576 live cells.
    Cells,
    /// More than 32,768 printed bytes.
    Output,
    /// The terminator `unreachable`.
    Unreachable,
}

/// How a call ended: with a value or without one, a pointer as its address; with a trap; or not
/// within its number of steps.
#[derive(Clone, Copy, Debug, PartialEq, Eq)]
pub enum End {
    Returned(Option<u64>),
    Trapped(TrapKind),
    StepsSpent,
}

/// What a call printed, and how it ended.
#[derive(Debug, Drop, PartialEq, Eq)]
pub struct CallResult {
    pub printed: Seq<u8>,
    pub end: End,
}

/// A call: the number of a function, counted from 0 in the order of the text, and an argument for
/// each of its parameters, modulo 2 to the parameter's width.
#[derive(Debug, Drop, PartialEq, Eq)]
pub struct Call {
    pub function: u32,
    pub args: Seq<u64>,
}
