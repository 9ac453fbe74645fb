//! The words of the language that a choice stands on, as enumerations.

use ir_tree::{BinOp, ConvOp};

/// What stands behind `%d =`, by its first word (LLVM Language Reference, "Instruction Reference").
#[derive(Clone, Copy, Debug, PartialEq, Eq)]
pub enum Opcode {
    Binary(BinOp),
    Compare,
    Convert(ConvOp),
    Freeze,
    Select,
    Phi,
    Alloca,
    Load,
    Gep,
    Call,
    /// `tail` or `notail`, before `call`.
    Tail,
}

/// An instruction without the name of a result, by its first word.
#[derive(Clone, Copy, Debug, PartialEq, Eq)]
pub enum Effect {
    Store,
    Call,
    /// `tail` or `notail`, before `call`.
    Tail,
    Count,
}

/// A terminator, by its first word (LLVM Language Reference, "Terminator Instructions").
#[derive(Clone, Copy, Debug, PartialEq, Eq)]
pub enum Ending {
    Br,
    Switch,
    Ret,
    Unreachable,
}

/// A part of a module, by its first word.
#[derive(Clone, Copy, Debug, PartialEq, Eq)]
pub enum Keyword {
    Target,
    Attributes,
    Declare,
    Define,
}

/// What follows a word that is read past: nothing, a number, a string, tokens in parentheses, or `=` and a string where
/// an `=` stands.
#[derive(Clone, Copy, Debug, PartialEq, Eq)]
pub enum Past {
    Alone,
    Number,
    Text,
    Parens,
    Assigned,
    /// `!word !N`, from behind the first mark.
    Attachment,
}

/// Where words are read past.
#[derive(Clone, Copy, Debug, PartialEq, Eq)]
pub enum Place {
    /// Before a return type.
    Return,
    /// With a parameter or an argument.
    Value,
    /// Behind the parameters of a function or the arguments of a call.
    Function,
}

/// Behind what parts that begin with a comma are read past.
#[derive(Clone, Copy, Debug, PartialEq, Eq)]
pub enum Tail {
    /// An instruction or terminator.
    Plain,
    /// An instruction that may say its alignment.
    Aligned,
    /// A global variable.
    Global,
}

/// What a profile node says, by its name.
#[derive(Clone, Copy, Debug, PartialEq, Eq)]
pub enum NoteKind {
    Entry,
    Weights,
    Targets,
}

/// Where one word among several is marked.
#[derive(Clone, Copy, Debug, PartialEq, Eq)]
pub enum Marks {
    /// `external` among the words of linkage of a global variable.
    External,
    /// `inbounds` among the flags of `getelementptr`.
    Inbounds,
}

/// What a token does to the brackets that are open. The kind of a bracket is the byte of its opening sign.
#[derive(Clone, Copy, Debug, PartialEq, Eq)]
pub enum Bracket {
    Opens(u8),
    Closes(u8),
    Neither,
}
