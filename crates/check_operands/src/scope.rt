// What the operands of a function are looked up in.
use ir_rules::Kind;
use ir_tree::{Function, FunctionIndex, Index, Module};

/// A function, with the index of its names and that of the module's global variables and then functions.
#[derive(Clone, Copy)]
pub(crate) struct Scope<'a> {
    pub(crate) known: &'a FunctionIndex,
    pub(crate) symbols: &'a Index,
    pub(crate) kind: Kind,
    pub(crate) module: &'a Module,
    pub(crate) function: &'a Function,
}
