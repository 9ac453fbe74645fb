//! Text as pieces, each of them closed by what stands directly behind it: how a token of LLVM assembly is written, and the
//! text that pieces come to. The calls append tokens as they are written.
#![tactic(auto)]

mod stop;
mod tokens;

pub use stop::{Stop, push_stop, stop_at};
pub use tokens::{push_byte_string, push_global, push_label, push_local, push_negative};

#[cfg(test)]
mod tests;
