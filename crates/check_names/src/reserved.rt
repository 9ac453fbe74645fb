// Rule 3: names of instrumentation and of the profile runtime stand only in modules that have them.
ghost use Rattle.std.specs.Prelude.{◌≡◌, ◌≤◌, not, length};
ghost use Rattle.check_names.specs.Few.{HasFew};
ghost use Rattle.check_names.specs.Outer.{global_places, head_places};
ghost use Rattle.ir_rules.specs.Kinds.{kind_of};
ghost use Rattle.ir_rules.specs.Parts.{places};
ghost use Rattle.ir_rules.specs.Reserved as spec;
ghost use Rattle.spec_lists.specs.Each.{first_of};

use crate::kinds::{is_unit_counters, is_unit_data};
use crate::place::{first_of_both, item_place, variable_place};
use ir_rules::{Kind, Place};
use ir_tree::{Function, Global1, Module};

/// The first place that breaks the rule.
pub(crate) fn reserved(kind: Kind, module: &Module) -> Option<Place>
    requires few { HasFew «module».now }
    requires kind { kind ≡ kind_of «module».now.functions }
    ensures { result ≡ first_of (places (spec.reserved «module».now) «module».now) }
{
    first_of_both(
        reserved_variable(kind, module.globals.as_slice()),
        reserved_function(kind, module.functions.as_slice()),
    )
}

fn reserved_variable(kind: Kind, globals: &[Global1]) -> Option<Place>
    ensures { result ≡ first_of (global_places (λ n g. not (spec.is_reserved_variable kind g.name)) globals.now) }
{
    for (n, g) in globals.iter().enumerate() {
        if is_reserved_variable(kind, g.name.bytes()) {
            return Some(variable_place(n));
        }
    }
    None
}

fn reserved_function(kind: Kind, functions: &[Function]) -> Option<Place>
    requires few { length functions.now ≤ 65540 }
    ensures { result ≡ first_of (head_places (λ k f. not (spec.is_reserved_function kind f.name)) functions.now) }
{
    for (k, f) in functions.iter().enumerate() {
        if is_reserved_function(kind, f.name.bytes()) {
            return Some(item_place(k, 0, 0));
        }
    }
    None
}

fn is_reserved_variable(kind: Kind, name: &[u8]) -> bool
    ensures { result ≡ spec.is_reserved_variable kind name.now }
{
    match kind {
        Kind::Plain => is_of_units(name) || (is_of_runtime(name) || is_of_intrinsics(name)),
        Kind::Counted => {
            is_unit_counters(name)
                || (is_unit_data(name)
                    || ((is_of_runtime(name) && !is_version(name)) || is_of_intrinsics(name)))
        }
        Kind::Lowered => is_of_intrinsics(name),
    }
}

fn is_reserved_function(kind: Kind, name: &[u8]) -> bool
    ensures { result ≡ spec.is_reserved_function kind name.now }
{
    match kind {
        Kind::Plain => is_of_units(name) || (is_of_runtime(name) || is_of_intrinsics(name)),
        Kind::Counted => is_unit_counters(name) || (is_unit_data(name) || is_of_runtime(name)),
        Kind::Lowered => is_of_intrinsics(name),
    }
}

#[tactic(auto, unfolding(ir_rules::specs::Reserved::is_of_intrinsics))]
fn is_of_intrinsics(name: &[u8]) -> bool
    ensures { result ≡ spec.is_of_intrinsics name.now }
{
    name.starts_with(b"llvm.instrprof.".as_slice())
}

#[tactic(auto, unfolding(ir_rules::specs::Reserved::is_of_runtime))]
fn is_of_runtime(name: &[u8]) -> bool
    ensures { result ≡ spec.is_of_runtime name.now }
{
    name.starts_with(b"__llvm_profile".as_slice())
}

#[tactic(auto, unfolding(ir_rules::specs::Reserved::is_of_units))]
fn is_of_units(name: &[u8]) -> bool
    ensures { result ≡ spec.is_of_units name.now }
{
    name.starts_with(b"__prof".as_slice())
}

#[tactic(auto, unfolding(ir_rules::specs::Reserved::is_version))]
fn is_version(name: &[u8]) -> bool
    ensures { result ≡ spec.is_version name.now }
{
    b"__llvm_profile_raw_version".as_slice() == name
}
