// Literals and globals among the operands of a call.
ghost use Rattle.std.specs.Prelude.{◌≡◌, Some, is_some, slice_get};
ghost use Rattle.std.specs.Option.{option_and_then, option_copied};
ghost use Rattle.check_counting.specs.Checking as spec;
ghost use Rattle.ir_tree.specs.Names.{first_place};

use ir_tree::{Global1, Index, Operand};

/// The literal that an operand is.
pub(crate) fn number_of(operand: &Operand) -> Option<u64>
    ensures { result ≡ spec.number_of operand.now }
{
    match operand {
        Operand::Int(value) => Some(*value),
        Operand::Null | Operand::Local(_) | Operand::Global(_) => None,
    }
}

/// The global variable of a name. `symbols` are the names of the global variables and then the functions.
pub(crate) fn variable_of<'a>(
    symbols: &Index,
    globals: &'a [Global1],
    name: &[u8],
) -> Option<&'a Global1>
    ensures { option_copied result ≡ spec.variable_of symbols.now globals.now name.now }
{
    match symbols.find(name) {
        Some(place) => globals.get(place),
        None => None,
    }
}
