//! Integer modules of LLVM assembly as values: the types, the names in them and an index of names.
#![tactic(auto)]

mod compared;
mod copies;
mod edge;
mod firsts;
mod function_index;
mod functions;
mod index;
mod locals;
mod name;
mod numbering;
mod parts;
mod spelling;
mod types;

pub use edge::Edge;
pub use function_index::FunctionIndex;
pub use functions::{is_print_name, is_profile_name};
pub use index::Index;
pub use locals::{Local, LocalKind};
pub use name::Name;
pub use numbering::Numbering;
pub use parts::{entry_for, phi_count};
pub use seq::Seq;
pub use spelling::{
    is_digits, is_global_name, is_local_name, is_name_byte, is_name_first, is_plain, is_quotable,
    is_word_first, push_global_name, push_local_name,
};
pub use types::{
    BinOp, Block, ConvOp, Flags, Function, Global1, Init, Instr, MemTy, Module, Operand, Pred,
    Prof, Ret, Term, Ty,
};

#[cfg(test)]
mod tests;
