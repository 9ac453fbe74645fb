// Initialisers have the types of their globals.
ghost use Rattle.std.specs.Prelude.{◌≡◌};
ghost use Rattle.ir_rules.specs.Initialisers as spec;
ghost use Rattle.ir_rules.specs.Sizes as sizes;
ghost use Rattle.ir_rules.specs.Units.{is_some_length};
ghost use Rattle.ir_tree.specs.Types as types;

use crate::unit::{Cell, length_of};
use ir_tree::{Init, MemTy, Ty};

/// Whether the initialiser is of the type.
#[tactic(auto, using(crate::proofs::Rows::list_initialises))]
pub(crate) fn initialises(mem: &MemTy, init: &Init) -> bool
    ensures { result ≡ spec.initialises mem.now init.now }
{
    match init {
        Init::Int(value) => is_literal_of(scalar_of(mem), *value),
        Init::Null | Init::Symbol(_) => is_pointer(scalar_of(mem)),
        Init::Zero => true,
        Init::Bytes(bytes) => is_length(bytes.len(), length_of(Cell::Byte, mem)),
        Init::List(inits) => {
            let items = inits.as_slice();
            if !has_length(items.len(), mem) {
                return false;
            }
            let element = element_of(mem);
            for item in items {
                if !initialises(element, item) {
                    return false;
                }
            }
            true
        }
        Init::External => false,
    }
}

fn scalar_of(mem: &MemTy) -> Option<Ty>
    ensures { result ≡ sizes.scalar_of mem.now }
{
    match mem {
        MemTy::Scalar(ty) => Some(*ty),
        MemTy::Array { .. } => None,
    }
}

fn element_of(mem: &MemTy) -> &MemTy
    ensures { result.now ≡ sizes.element_of mem.now }
{
    match mem {
        MemTy::Scalar(_) => mem,
        MemTy::Array { element, .. } => element.get(),
    }
}

fn is_literal_of(ty: Option<Ty>, value: u64) -> bool
    ensures { result ≡ spec.is_literal_of ty value }
{
    match ty {
        Some(ty) => ty.has_integer(value),
        None => false,
    }
}

fn is_pointer(ty: Option<Ty>) -> bool
    ensures { result ≡ spec.is_pointer ty }
{
    match ty {
        Some(ty) => is_pointer_type(ty),
        None => false,
    }
}

fn is_pointer_type(ty: Ty) -> bool
    ensures { result ≡ types.is_pointer_type ty }
{
    match ty {
        Ty::Ptr => true,
        Ty::I1 | Ty::I8 | Ty::I16 | Ty::I32 | Ty::I64 => false,
    }
}

fn is_length(n: usize, length: Option<u64>) -> bool
    ensures { result ≡ is_some_length n length }
{
    match length {
        Some(length) => length == n as u64,
        None => false,
    }
}

fn has_length(n: usize, mem: &MemTy) -> bool
    ensures { result ≡ spec.has_length n mem.now }
{
    match mem {
        MemTy::Scalar(_) => false,
        MemTy::Array { count, .. } => *count == n as u64,
    }
}
