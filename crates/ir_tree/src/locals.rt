// What the names of a function stand for.
use crate::types::{Ret, Ty};

/// What a name of a function stands for: a parameter of this type, a result, or a block.
#[derive(Clone, Copy, Debug, PartialEq, Eq)]
pub enum LocalKind {
    Param(Ty),
    Result(Ret),
    Label,
}

/// What a name stands for, with the block and the item at which it stands. A parameter stands in block 0 and has its
/// number as item, a label is item 0 of its block, and a result has the number of its instruction.
#[derive(Clone, Copy, Debug, PartialEq, Eq)]
pub struct Local {
    pub kind: LocalKind,
    pub block: usize,
    pub item: usize,
}
