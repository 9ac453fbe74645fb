//! The one canonical text of a module.
#![tactic(auto)]

mod call;
mod function;
mod init;
mod instr;
mod laws;
mod memory;
mod node;
mod nodes;
mod note;
mod operation;
mod term;
mod text;
mod values;
mod variable;
mod words;

pub use laws::{lines_are_printed, module_is_printed};
pub use text::print;
