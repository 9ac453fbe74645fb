// What is put into a function, block by block.

use ir_tree::{Function, Global1, Name};
use seq::Seq;

/// A new block on an edge: its label, and the counter that rises in it, if one does.
#[derive(Debug, Drop)]
pub struct NewBlock {
    pub label: Name,
    pub counter: Option<u32>,
}

/// What stands before an instruction: nothing; before a select the addition of its condition to a counter; before a call
/// through a register the note of its target at a site. `register` is the new register that takes the condition or the
/// target as an integer of 64 bits.
#[derive(Debug, Drop)]
pub enum Watch {
    Nothing,
    Condition { register: Name, counter: u32 },
    Target { register: Name, site: u32 },
}

/// What is put into a block: the counter that rises at its head, behind its phis; what stands before each of its instructions
/// behind the phis; the counter that rises before its terminator; and, by successor position, the new blocks on its ways
/// out. What the lists are too short for is nothing.
#[derive(Debug, Drop)]
pub struct BlockPlan {
    pub head: Option<u32>,
    pub watches: Seq<Watch>,
    pub tail: Option<u32>,
    pub edges: Seq<Option<NewBlock>>,
}

/// What is put into a function: the global that names its record in the profile, the hash of its edge graph, the number of its
/// counters, and a plan for each of its blocks.
#[derive(Debug, Drop)]
pub struct FunctionPlan {
    pub symbol: Name,
    pub hash: u64,
    pub counters: u32,
    pub blocks: Seq<BlockPlan>,
}

/// What is put into a module: a plan for each of its functions, and the globals and the declared functions that are put behind
/// its own.
#[derive(Debug, Drop)]
pub struct ModulePlan {
    pub functions: Seq<FunctionPlan>,
    pub globals: Seq<Global1>,
    pub declarations: Seq<Function>,
}
