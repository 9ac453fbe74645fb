//! Worked examples of the canonical text. The functions without a body carry them in their contracts.

ghost use Rattle.ir_print.specs.Examples.{LinesArePrinted, ModuleIsPrinted};

/// A line for each instruction, flag and terminator, as written by hand.
pub fn lines_are_printed()
    ensures { LinesArePrinted }
{}

/// A module with notes, and the empty one.
pub fn module_is_printed()
    ensures { ModuleIsPrinted }
{}
