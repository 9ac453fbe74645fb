// The globals of a profile: the name of a unit, its counters and its data.
ghost use Rattle.std.specs.Prelude.{◌≡◌};
ghost use Rattle.ir_rules.specs.Kinds as kinds;
ghost use Rattle.ir_rules.specs.Units as units;

use crate::sites::sites_in;
use ir_tree::{Global1, MemTy, Ty};

#[tactic(auto, unfolding(ir_rules::specs::Kinds::is_unit_name))]
pub(crate) fn is_unit_name(name: &[u8]) -> bool
    ensures { result ≡ kinds.is_unit_name name.now }
{
    name.starts_with(b"__profn_".as_slice())
}

#[tactic(auto, unfolding(ir_rules::specs::Kinds::is_unit_counters))]
pub(crate) fn is_unit_counters(name: &[u8]) -> bool
    ensures { result ≡ kinds.is_unit_counters name.now }
{
    name.starts_with(b"__profc_".as_slice())
}

#[tactic(auto, unfolding(ir_rules::specs::Kinds::is_unit_data))]
pub(crate) fn is_unit_data(name: &[u8]) -> bool
    ensures { result ≡ kinds.is_unit_data name.now }
{
    name.starts_with(b"__profd_".as_slice())
}

/// The length of an array of 64-bit integers.
pub(crate) fn length_of_i64(mem: &MemTy) -> Option<u64>
    ensures { result ≡ units.length_of units.is_i64 mem.now }
{
    match mem {
        MemTy::Scalar(_) => None,
        MemTy::Array { count, element } => {
            if is_i64(element.get()) {
                return Some(*count);
            }
            None
        }
    }
}

fn is_i64(mem: &MemTy) -> bool
    ensures { result ≡ units.is_scalar units.is_i64 mem.now }
{
    match mem {
        MemTy::Scalar(ty) => is_i64_ty(*ty),
        MemTy::Array { .. } => false,
    }
}

fn is_i64_ty(ty: Ty) -> bool
    ensures { result ≡ units.is_i64 ty }
{
    match ty {
        Ty::I64 => true,
        Ty::I1 | Ty::I8 | Ty::I16 | Ty::I32 | Ty::Ptr => false,
    }
}

/// Whether a length is there and is this one.
pub(crate) fn is_length(size: u64, length: Option<u64>) -> bool
    ensures { result ≡ units.is_some_length size length }
{
    match length {
        Some(n) => n == size,
        None => false,
    }
}

/// The sites that a unit's data tell.
pub(crate) fn sites_of(g: &Global1) -> u64
    ensures { result ≡ units.sites_of g.now }
{
    if is_length(4, length_of_i64(&g.mem)) {
        sites_in(&g.init)
    } else {
        0
    }
}
