// The types of a module. Integers are kept modulo 2 to the power of their width.
use crate::name::Name;
use seq::Seq;
use sqlite_items::Boxed;

/// The type of a value: an integer of that many bits, or an opaque pointer.
#[derive(Clone, Copy, Debug, Default, PartialEq, Eq)]
pub enum Ty {
    #[default]
    I1,
    I8,
    I16,
    I32,
    I64,
    Ptr,
}

/// What a function returns.
#[derive(Clone, Copy, Debug, PartialEq, Eq)]
pub enum Ret {
    Void,
    Value(Ty),
}

/// The type of a place in memory: a value or an array (LLVM Language Reference, "Array Type").
#[derive(Debug, Drop)]
pub enum MemTy {
    Scalar(Ty),
    Array { count: u64, element: Boxed<MemTy> },
}

/// An operand: an integer, the null pointer, a parameter or result, or the address of a global
/// variable or function.
#[derive(Debug, Default, Drop, PartialEq, Eq)]
pub enum Operand {
    Int(u64),
    #[default]
    Null,
    Local(Name),
    Global(Name),
}

/// What a global variable holds at first. `Zero` is `zeroinitializer`, and an `External` variable
/// has no initialiser.
#[derive(Debug, Drop, PartialEq)]
pub enum Init {
    Int(u64),
    Null,
    Symbol(Name),
    Zero,
    Bytes(Seq<u8>),
    List(Seq<Init>),
    External,
}

/// The flags of an operator or conversion. They are kept and have no effect.
#[derive(Clone, Copy, Debug, PartialEq, Eq)]
pub struct Flags {
    pub nuw: bool,
    pub nsw: bool,
    pub exact: bool,
}

/// The integer operators (LLVM Language Reference, "Binary Operations" and "Bitwise Binary
/// Operations").
#[derive(Clone, Copy, Debug, PartialEq, Eq)]
pub enum BinOp {
    Add,
    Sub,
    Mul,
    UDiv,
    SDiv,
    URem,
    SRem,
    Shl,
    LShr,
    AShr,
    And,
    Or,
    Xor,
}

/// The predicates of `icmp`.
#[derive(Clone, Copy, Debug, PartialEq, Eq)]
pub enum Pred {
    Eq,
    Ne,
    Ugt,
    Uge,
    Ult,
    Ule,
    Sgt,
    Sge,
    Slt,
    Sle,
}

/// The conversions (LLVM Language Reference, "Conversion Operations").
#[derive(Clone, Copy, Debug, PartialEq, Eq)]
pub enum ConvOp {
    Trunc,
    ZExt,
    SExt,
    PtrToInt,
}

/// A `!prof` note: a function's entry count, the weights of a branch, switch or select, or the
/// targets of a call, each a hash and a count, with their total (LLVM Language Reference, "'prof'
/// Metadata").
#[derive(Debug, Drop, PartialEq, Eq)]
pub enum Prof {
    Entry(u64),
    Weights(Seq<u32>),
    Targets { total: u64, list: Seq<(u64, u64)> },
}

/// A global variable. The name `Global` is the allocator's.
#[derive(Debug, Drop)]
pub struct Global1 {
    pub name: Name,
    pub constant: bool,
    pub mem: MemTy,
    pub init: Init,
}

/// An instruction other than a terminator (LLVM Language Reference, "Instruction Reference").
/// `dest` names its result. `Count` is `atomicrmw add` on one counter of a global variable, an
/// array of `size` counters.
#[derive(Debug, Drop)]
pub enum Instr {
    Binary {
        dest: Name,
        op: BinOp,
        flags: Flags,
        ty: Ty,
        left: Operand,
        right: Operand,
    },
    Compare {
        dest: Name,
        pred: Pred,
        ty: Ty,
        left: Operand,
        right: Operand,
    },
    Convert {
        dest: Name,
        op: ConvOp,
        flags: Flags,
        from: Ty,
        value: Operand,
        to: Ty,
    },
    Freeze {
        dest: Name,
        ty: Ty,
        value: Operand,
    },
    Select {
        dest: Name,
        cond: Operand,
        ty: Ty,
        yes: Operand,
        no: Operand,
        prof: Option<Boxed<Prof>>,
    },
    Phi {
        dest: Name,
        ty: Ty,
        entries: Seq<(Operand, Name)>,
    },
    Alloca {
        dest: Name,
        mem: MemTy,
    },
    Load {
        dest: Name,
        ty: Ty,
        address: Operand,
    },
    Store {
        ty: Ty,
        value: Operand,
        address: Operand,
    },
    Gep {
        dest: Name,
        inbounds: bool,
        mem: MemTy,
        address: Operand,
        indices: Seq<(Ty, Operand)>,
    },
    Call {
        dest: Option<Name>,
        ret: Ret,
        callee: Operand,
        args: Seq<(Ty, Operand)>,
        prof: Option<Boxed<Prof>>,
    },
    Count {
        symbol: Name,
        size: u64,
        index: u64,
        step: Operand,
    },
}

/// The terminator of a block (LLVM Language Reference, "Terminator Instructions"). The successors
/// of a branch stand in the order of its text, those of a switch begin with the default.
#[derive(Debug, Drop)]
pub enum Term {
    Br {
        to: Name,
    },
    CondBr {
        cond: Operand,
        yes: Name,
        no: Name,
        prof: Option<Boxed<Prof>>,
    },
    Switch {
        ty: Ty,
        value: Operand,
        default: Name,
        cases: Seq<(u64, Name)>,
        prof: Option<Boxed<Prof>>,
    },
    Ret {
        value: Option<(Ty, Operand)>,
    },
    Unreachable,
}

/// A block: its label, its instructions in order, and its terminator.
#[derive(Debug, Drop)]
pub struct Block {
    pub label: Name,
    pub instrs: Seq<Instr>,
    pub term: Term,
}

/// A function. Without blocks it is declared, and its parameters have empty names; else its first
/// block is its entry.
#[derive(Debug, Drop)]
pub struct Function {
    pub name: Name,
    pub ret: Ret,
    pub params: Seq<(Ty, Name)>,
    pub blocks: Seq<Block>,
    pub prof: Option<Boxed<Prof>>,
}

/// A module: its global variables and its functions, each in the order of the text.
#[derive(Debug, Drop)]
pub struct Module {
    pub globals: Seq<Global1>,
    pub functions: Seq<Function>,
}
