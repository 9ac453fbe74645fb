// The names that instrumentation and the profile runtime add, and rule 2: a module is not of two kinds.
ghost use Rattle.std.specs.Prelude.{◌≡◌, codes};
ghost use Rattle.std.specs.List.{list_any};
ghost use Rattle.ir_rules.specs.Kinds as spec;
ghost use Rattle.ir_rules.specs.OneKind.{is_of_one_kind, one_kind};
ghost use Rattle.ir_rules.specs.Parts.{places};
ghost use Rattle.spec_lists.specs.Each.{first_of};

use crate::place::{item_place, unless};
use ir_rules::{Kind, Place};
use ir_tree::{Function, Module};

/// The place of the whole module, where it is both counted and lowered.
pub(crate) fn of_two_kinds(kind: Kind, module: &Module) -> Option<Place>
    requires { kind ≡ spec.kind_of «module».now.functions }
    ensures { result ≡ first_of (places (one_kind «module».now) «module».now) }
{
    unless(is_of_one_kind(kind, module), item_place(0, 0, 0))
}

fn is_of_one_kind(kind: Kind, module: &Module) -> bool
    requires { kind ≡ spec.kind_of «module».now.functions }
    ensures { result ≡ is_of_one_kind «module».now }
{
    match kind {
        Kind::Counted => !declares_notes(module.functions.as_slice()),
        Kind::Plain | Kind::Lowered => true,
    }
}

#[tactic(auto, unfolding(ir_rules::specs::Kinds::declares_notes))]
fn declares_notes(functions: &[Function]) -> bool
    ensures { result ≡ spec.declares_notes functions.now }
{
    functions.iter().any(declares_note)
}

fn declares_note(f: &Function) -> bool
    ensures { result ≡ spec.declares (codes "__llvm_profile_instrument_target") f.now }
{
    f.is_declared() && f.name.bytes() == b"__llvm_profile_instrument_target".as_slice()
}

/// Whether a global of this name names a unit.
#[tactic(auto, unfolding(ir_rules::specs::Kinds::is_unit_name))]
pub(crate) fn is_unit_name(name: &[u8]) -> bool
    ensures { result ≡ spec.is_unit_name name.now }
{
    name.starts_with(b"__profn_".as_slice())
}

/// Whether a global of this name holds the counters of a unit.
#[tactic(auto, unfolding(ir_rules::specs::Kinds::is_unit_counters))]
pub(crate) fn is_unit_counters(name: &[u8]) -> bool
    ensures { result ≡ spec.is_unit_counters name.now }
{
    name.starts_with(b"__profc_".as_slice())
}

/// Whether a global of this name holds the data of a unit.
#[tactic(auto, unfolding(ir_rules::specs::Kinds::is_unit_data))]
pub(crate) fn is_unit_data(name: &[u8]) -> bool
    ensures { result ≡ spec.is_unit_data name.now }
{
    name.starts_with(b"__profd_".as_slice())
}
