//! Reads the text of a module (LLVM Language Reference). The grammar that it follows stands in `ir_grammar`, and the
//! cutting of a text into tokens in `ir_lex`. Each production of the grammar has one function here, whose contract says
//! that it reads what the production reads.
#![tactic(auto)]

mod call;
mod cursor;
mod decode;
mod error;
mod function;
mod instr;
mod item;
mod laws;
mod memory;
mod nodes;
mod note;
mod operand;
mod operation;
mod params;
mod part;
mod past;
mod stop;
mod table;
mod term;
mod text;
mod types;
mod variable;
mod word;

pub use error::ReadError;
pub use laws::one_module;
pub use text::read;
