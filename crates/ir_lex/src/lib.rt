//! The tokens of LLVM assembly, as slices of its text.
//!
//! [`Tokens`] goes over a text from its start. The longest token is taken, as in LLVM's own lexer; spaces, tabs, line
//! ends and comments part tokens. Nothing is copied, and no call takes memory.
#![tactic(auto)]

mod bytes;
mod laws;
mod longest;
mod scan;
mod token;
mod tokens;

pub use laws::{cut_is_spelled, tokens_are_cut, tokens_are_unique};
pub use token::{Syntax, Token, TokenKind};
pub use tokens::Tokens;

#[cfg(test)]
mod tests;
