// Rule 18: notes of the targets of calls.
ghost use Rattle.std.specs.Prelude.{◌≡◌};
ghost use Rattle.std.specs.Option.{option_copied};
ghost use Rattle.check_counting.specs.Checking as spec;
ghost use Rattle.ir_rules.specs.Counting as rule;
ghost use Rattle.ir_rules.specs.Declarations as names;

use crate::operands::variable_of;
use crate::units::{is_unit_data, sites_of};
use ir_tree::{Global1, Index, Module, Operand, Ty};

/// Whether a call notes no target, or with the data of a unit and one of its sites.
pub(crate) fn calls_note_well(
    symbols: &Index,
    module: &Module,
    callee: &Operand,
    args: &[(Ty, Operand)],
) -> bool
    requires scope { spec.IsScope symbols.now «module».now }
    ensures { result ≡ rule.calls_note_well «module».now callee.now args.now }
{
    match callee {
        Operand::Global(name) => !is_target_note(name.bytes()) || notes_well(symbols, module, args),
        Operand::Int(_) | Operand::Null | Operand::Local(_) => true,
    }
}

// A note with another number of arguments breaks the rule on calls.
#[tactic(auto, using(crate::proofs::Arguments::three_note, crate::proofs::Arguments::other_note))]
fn notes_well(symbols: &Index, module: &Module, args: &[(Ty, Operand)]) -> bool
    requires scope { spec.IsScope symbols.now «module».now }
    ensures { result ≡ rule.notes_well «module».now args.now }
{
    if args.len() != 3 {
        return true;
    }
    names_site_of(symbols, module, &args[1].1, &args[2].1)
}

fn names_site_of(symbols: &Index, module: &Module, unit: &Operand, site: &Operand) -> bool
    requires scope { spec.IsScope symbols.now «module».now }
    ensures { result ≡ rule.names_site_of «module».now unit.now site.now }
{
    match unit {
        Operand::Global(name) => is_site_of(symbols, module, name.bytes(), site),
        Operand::Int(_) | Operand::Null | Operand::Local(_) => false,
    }
}

fn is_site_of(symbols: &Index, module: &Module, name: &[u8], site: &Operand) -> bool
    requires scope { spec.IsScope symbols.now «module».now }
    ensures { result ≡ spec.is_site_of «module».now name.now site.now }
{
    match site {
        Operand::Int(value) => has_site(symbols, module, name, *value),
        Operand::Null | Operand::Local(_) | Operand::Global(_) => false,
    }
}

#[tactic(auto, using(crate::proofs::Variables::any_variable))]
fn has_site(symbols: &Index, module: &Module, name: &[u8], site: u64) -> bool
    requires scope { spec.IsScope symbols.now «module».now }
    ensures { result ≡ rule.has_site «module».now name.now site }
{
    is_unit_data(name) && has_more(site, variable_of(symbols, module.globals.as_slice(), name))
}

fn has_more(site: u64, found: Option<&Global1>) -> bool
    ensures { result ≡ spec.if_any (spec.has_more site) (option_copied found.entry) }
{
    match found {
        Some(g) => site < sites_of(g),
        None => false,
    }
}

#[tactic(auto, unfolding(ir_rules::specs::Declarations::is_target_note))]
fn is_target_note(name: &[u8]) -> bool
    ensures { result ≡ names.is_target_note name.now }
{
    b"__llvm_profile_instrument_target".as_slice() == name
}
