// Resolved code: registers, blocks, functions, objects and counters go by number, and an instruction is one operation.
use crate::cases::Cases;
use ir_tree::{ConvOp, Ret, Seq, Ty};
use ir_value::{ValueOp, ValuePred};

/// Where the value of an operand comes from: a number, an address, or a register.
#[derive(Clone, Copy, Debug)]
pub enum Input {
    Number(u64),
    Null,
    Function(u32),
    Object(u64),
    Register(usize),
}

/// An index of a `getelementptr`: its type, its value, and the size of what one step of it passes, in bytes modulo
/// 2^64.
#[derive(Clone, Copy, Debug)]
pub struct Scaled {
    pub ty: Ty,
    pub index: Input,
    pub size: u64,
}

/// Counters or sites of one unit of the profile, among those of the whole module: the number of the first, and how many
/// there are.
#[derive(Clone, Copy, Debug)]
pub struct Span {
    pub first: u32,
    pub count: u32,
}

/// A register that takes a value, and the type at which it takes it.
#[derive(Clone, Copy, Debug)]
pub struct Target {
    pub register: usize,
    pub ty: Ty,
}

/// An instruction. `into` is the register of its result. A phi is no operation: it is a move on each edge to its block.
#[derive(Debug, Drop)]
pub enum Op {
    Binary {
        into: usize,
        op: ValueOp,
        ty: Ty,
        left: Input,
        right: Input,
    },
    Compare {
        into: usize,
        pred: ValuePred,
        ty: Ty,
        left: Input,
        right: Input,
    },
    Convert {
        into: usize,
        op: ConvOp,
        from: Ty,
        to: Ty,
        value: Input,
    },
    Freeze {
        into: usize,
        ty: Ty,
        value: Input,
    },
    Select {
        into: usize,
        ty: Ty,
        cond: Input,
        yes: Input,
        no: Input,
    },
    /// `size` is in bytes, and 2^64 - 1 stands for all sizes from there on, which no memory has.
    Alloca {
        into: usize,
        size: u64,
    },
    Load {
        into: usize,
        ty: Ty,
        address: Input,
    },
    Store {
        ty: Ty,
        value: Input,
        address: Input,
    },
    Gep {
        into: usize,
        address: Input,
        indices: Seq<Scaled>,
    },
    Call {
        into: Option<Target>,
        ret: Ret,
        callee: Input,
        args: Seq<(Ty, Input)>,
    },
    /// A counter of a unit rises.
    Add {
        unit: Span,
        counter: Input,
        step: Input,
    },
    /// The function at an address is noted at a site of a unit.
    Note {
        unit: Span,
        site: Input,
        target: Input,
    },
    /// What no accepted module has.
    Fail,
}

/// A terminator: it takes the first edge of its block, or one by a condition or by a number, or it returns.
#[derive(Debug, Drop)]
pub enum Exit {
    Go,
    Choose { cond: Input },
    Switch { ty: Ty, value: Input, cases: Cases },
    Return { value: Option<(Ty, Input)> },
    Unreachable,
}

/// A register that takes a value of this type.
#[derive(Clone, Copy, Debug)]
pub struct Move {
    pub into: Target,
    pub source: Input,
}

/// An edge: the place of the block that it leads to, and what the phis of that block do on it, one move each in their
/// order. All are read before one is written.
#[derive(Debug, Drop)]
pub struct EdgeCode {
    pub block: usize,
    pub moves: Seq<Move>,
}

/// A block: its operations in order, how it is left, and an edge for each successor position.
#[derive(Debug, Drop)]
pub struct BlockCode {
    pub ops: Seq<Op>,
    pub exit: Exit,
    pub edges: Seq<EdgeCode>,
}

/// What a declared function does in the step of its call.
#[derive(Clone, Copy, Debug)]
pub enum Work {
    /// It prints its argument.
    Print,
    /// It does nothing, as the marks of lifetimes.
    Nothing,
    /// It has no work to do here.
    External,
}

/// A function: what it returns, the types of its parameters, its number of registers, the parameters first, and its
/// blocks. A declared function has no block, and does its work.
#[derive(Debug, Drop)]
pub struct FunctionCode {
    pub ret: Ret,
    pub params: Seq<Ty>,
    pub registers: usize,
    pub blocks: Seq<BlockCode>,
    pub work: Work,
}
