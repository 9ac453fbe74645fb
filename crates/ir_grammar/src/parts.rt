//! The parts that a module is made of.

use ir_tree::{Function, Global1};

/// What one part of a text adds to its module.
#[derive(Debug, Drop)]
pub enum Part {
    Variable(Global1),
    Function(Function),
    /// The part is read past.
    Nothing,
}
