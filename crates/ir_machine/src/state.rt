// What the machine keeps while it runs, and what its steps come to.
use ir_code::Target;
use ir_memory::{Memory, Value};
use ir_model::TrapKind;
use ir_tree::Seq;

/// A function that runs: its number, those of its block and of the next operation in it, its registers, and the number of
/// the first object that it allocates. `into` is the register of the caller that takes the result.
#[derive(Debug, Drop)]
pub struct Frame {
    pub function: usize,
    pub block: usize,
    pub place: usize,
    pub registers: Seq<Value>,
    pub base: u64,
    pub into: Option<Target>,
}

/// A run that goes on: the function that was called last, those that wait for it, the latest last, the memory, and the
/// bytes that were printed. `moved` is room for the values of the moves on an edge, and `spare` has the registers of a
/// function that has returned, whose room the next one takes.
#[derive(Drop)]
pub struct Machine {
    pub top: Frame,
    pub callers: Vec<Frame>,
    pub memory: Memory,
    pub printed: Vec<u8>,
    pub moved: Vec<Value>,
    pub spare: Seq<Value>,
}

/// What is seen of a step, by numbers: a function was entered; a block was left by a successor; a counter rose; a call
/// target was noted at a site. A return leaves its block by position 0.
#[derive(Clone, Copy, Debug)]
pub enum Sight {
    Entered {
        function: usize,
    },
    Left {
        function: usize,
        block: usize,
        position: usize,
    },
    Added {
        counter: u32,
        step: u64,
    },
    Noted {
        site: u32,
        callee: u32,
    },
}

/// What an operation that the loop over the steps asks a function for comes to: the run goes on, or a function was entered, or
/// it traps, or there was no memory. It fits registers, where a turn goes through memory.
#[derive(Clone, Copy, Debug)]
pub enum Answer {
    Goes,
    Enters,
    Fails(TrapKind),
    NoMemory,
}

/// What a step comes to: it goes on, it goes on and is seen, the call returns, or it traps.
#[derive(Clone, Copy, Debug)]
pub enum Turn {
    Goes,
    Sees(Sight),
    Returns { sight: Sight, value: Option<u64> },
    Traps(TrapKind),
}
