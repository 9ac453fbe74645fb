// The quantities of one global variable.
ghost use Rattle.std.specs.Prelude.{◌≡◌};
ghost use Rattle.ir_rules.specs.Kinds as kinds;
ghost use Rattle.ir_rules.specs.Limits as spec;
ghost use Rattle.ir_rules.specs.Units as units;

use crate::arrays::size_of;
use crate::kinds::is_plain;
use crate::sites::sites_in;
use ir_rules::Kind;
use ir_tree::{Global1, MemTy, Ty};

#[tactic(auto, unfolding(ir_rules::specs::Kinds::is_unit_name))]
fn is_unit_name(name: &[u8]) -> bool
    ensures { result ≡ kinds.is_unit_name name.now }
{
    name.starts_with(b"__profn_".as_slice())
}

#[tactic(auto, unfolding(ir_rules::specs::Kinds::is_unit_counters))]
fn is_unit_counters(name: &[u8]) -> bool
    ensures { result ≡ kinds.is_unit_counters name.now }
{
    name.starts_with(b"__profc_".as_slice())
}

#[tactic(auto, unfolding(ir_rules::specs::Kinds::is_unit_data))]
fn is_unit_data(name: &[u8]) -> bool
    ensures { result ≡ kinds.is_unit_data name.now }
{
    name.starts_with(b"__profd_".as_slice())
}

/// Whether a global of this name is one of a profile, in a module of the kind.
pub(crate) fn is_profile_variable(kind: Kind, name: &[u8]) -> bool
    ensures { result ≡ kinds.is_profile_variable kind name.now }
{
    !is_plain(kind) && (is_unit_name(name) || (is_unit_counters(name) || is_unit_data(name)))
}

/// The bytes of a global, at least one; none of one of a profile.
pub(crate) fn cells_of(kind: Kind, g: &Global1) -> u64
    ensures { result ≡ spec.reported (spec.cells_of kind g.now) }
{
    if is_profile_variable(kind, g.name.bytes()) {
        return 0;
    }
    let size = size_of(&g.mem);
    if size == 0 { 1 } else { size }
}

/// The counters that a unit has.
pub(crate) fn told_counters(g: &Global1) -> u64
    ensures { result ≡ spec.told_counters g.now }
{
    if !is_unit_counters(g.name.bytes()) {
        return 0;
    }
    match length_of_i64(&g.mem) {
        Some(n) => n,
        None => 0,
    }
}

// The length of an array of 64-bit integers.
fn length_of_i64(mem: &MemTy) -> Option<u64>
    ensures { result ≡ units.length_of units.is_i64 mem.now }
{
    match mem {
        MemTy::Scalar(_) => None,
        MemTy::Array { count, element } => {
            if is_i64(element.get()) {
                return Some(*count);
            }
            None
        }
    }
}

fn is_i64(mem: &MemTy) -> bool
    ensures { result ≡ units.is_scalar units.is_i64 mem.now }
{
    match mem {
        MemTy::Scalar(ty) => is_i64_ty(*ty),
        MemTy::Array { .. } => false,
    }
}

fn is_i64_ty(ty: Ty) -> bool
    ensures { result ≡ units.is_i64 ty }
{
    match ty {
        Ty::I64 => true,
        Ty::I1 | Ty::I8 | Ty::I16 | Ty::I32 | Ty::Ptr => false,
    }
}

/// The sites that a unit's data tell.
pub(crate) fn told_sites(g: &Global1) -> u64
    ensures { result ≡ spec.told_sites g.now }
{
    if !is_unit_data(g.name.bytes()) {
        return 0;
    }
    if is_four(length_of_i64(&g.mem)) {
        sites_in(&g.init)
    } else {
        0
    }
}

fn is_four(length: Option<u64>) -> bool
    ensures { result ≡ units.is_some_length 4 length }
{
    match length {
        Some(n) => n == 4,
        None => false,
    }
}
