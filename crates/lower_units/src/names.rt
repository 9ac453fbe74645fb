// The names of the intrinsics, and of the globals of a unit.
ghost use Rattle.std.specs.Prelude.{◌≡◌, IfOk};
ghost use Rattle.count_plan.specs.Calls as calls;
ghost use Rattle.ir_rules.specs.Kinds.{is_unit_name, unit_of};
ghost use Rattle.ir_tree.specs.Names.{same};
ghost use Rattle.lowering.specs.Units as spec;

use ir_tree::Name;
use pgo_base::NoMemory;
use std::alloc::Global;

// The fronts of a unit's names are of this length.
const FRONT: usize = 8;

#[tactic(auto, unfolding(count_plan::specs::Calls::increment_name))]
pub(crate) fn is_increment(name: &[u8]) -> bool
    ensures { result ≡ same calls.increment_name name.now }
{
    b"llvm.instrprof.increment".as_slice() == name
}

#[tactic(auto, unfolding(count_plan::specs::Calls::step_name))]
pub(crate) fn is_step(name: &[u8]) -> bool
    ensures { result ≡ same calls.step_name name.now }
{
    b"llvm.instrprof.increment.step".as_slice() == name
}

#[tactic(auto, unfolding(count_plan::specs::Calls::value_name))]
pub(crate) fn is_value_note(name: &[u8]) -> bool
    ensures { result ≡ same calls.value_name name.now }
{
    b"llvm.instrprof.value.profile".as_slice() == name
}

// Whether a global of this name names a unit.
#[tactic(auto, unfolding(ir_rules::specs::Kinds::is_unit_name))]
pub(crate) fn is_unit_name(name: &[u8]) -> bool
    ensures { result ≡ is_unit_name name.now }
{
    name.starts_with(b"__profn_".as_slice())
}

// What stands behind the front of a name.
fn unit_of(symbol: &[u8]) -> &[u8]
    ensures { result.now ≡ unit_of symbol.now }
{
    if symbol.len() < FRONT {
        return &[];
    }
    &symbol[FRONT..]
}

/// The name of the global with the counters of the unit that this global names.
pub fn counters_symbol(alloc: Global, symbol: &[u8]) -> Result<Name, NoMemory>
    ensures { IfOk result (λ made. made ≡ spec.counters_symbol symbol.now) }
{
    let mut bytes = Vec::from_slice(alloc, b"__profc_")?;
    bytes.extend_from_slice(unit_of(symbol))?;
    Name::of(alloc, bytes.as_slice())
}

/// The name of the global with the data of the unit that this global names.
pub fn data_symbol(alloc: Global, symbol: &[u8]) -> Result<Name, NoMemory>
    ensures { IfOk result (λ made. made ≡ spec.data_symbol symbol.now) }
{
    let mut bytes = Vec::from_slice(alloc, b"__profd_")?;
    bytes.extend_from_slice(unit_of(symbol))?;
    Name::of(alloc, bytes.as_slice())
}
