// Values at the types of their places.
ghost use Rattle.std.specs.Prelude.{◌≡◌, ◌<◌, ◌≤◌, ◌^◌, true};
ghost use Rattle.ir_tree.specs.Types.{is_pointer_type};
ghost use Rattle.ir_memory.specs.Contents.{FitsIn};
ghost use Rattle.ir_value.specs.Integer.{IsWidth};
ghost use Rattle.ir_model.specs.Sizes as sizes;
ghost use Rattle.ir_model.specs.Values as values;

use ir_memory::{Base, Value, address};
use ir_tree::Ty;
use ir_value::truncate;

/// The bits of a type; an address has 64.
pub fn bits_of(ty: Ty) -> u32
    ensures value { result ≡ values.bits_of ty }
    ensures width { IsWidth result }
{
    match ty {
        Ty::I1 => 1,
        Ty::I8 => 8,
        Ty::I16 => 16,
        Ty::I32 => 32,
        Ty::I64 | Ty::Ptr => 64,
    }
}

/// The size of a type in bytes.
pub fn bytes_of(ty: Ty) -> u32
    ensures value { result ≡ sizes.bytes_of ty }
    ensures most { result ≤ 8 }
    ensures pointer { is_pointer_type ty ≡ true → result ≡ 8 }
{
    match ty {
        Ty::I1 | Ty::I8 => 1,
        Ty::I16 => 2,
        Ty::I32 => 4,
        Ty::I64 | Ty::Ptr => 8,
    }
}

/// Whether a type is that of pointers.
pub fn is_pointer(ty: Ty) -> bool
    ensures { result ≡ is_pointer_type ty }
{
    match ty {
        Ty::I1 | Ty::I8 | Ty::I16 | Ty::I32 | Ty::I64 => false,
        Ty::Ptr => true,
    }
}

/// A value as a number: an integer is itself, a pointer its address.
pub fn as_number(value: Value) -> u64
    ensures { result ≡ values.as_number value }
{
    match value {
        Value::Int(number) => number,
        Value::Pointer { base, offset } => address(base, offset),
    }
}

/// What a pointer is based on; an integer on null.
pub fn base_of(value: Value) -> Base
    ensures { result ≡ values.base_of value }
{
    match value {
        Value::Int(_) => Base::Null,
        Value::Pointer { base, .. } => base,
    }
}

/// The offset of a pointer; of an integer its number.
pub fn offset_of(value: Value) -> u64
    ensures { result ≡ values.offset_of value }
{
    match value {
        Value::Int(number) => number,
        Value::Pointer { offset, .. } => offset,
    }
}

/// A value read at a type, as a number.
pub fn number_at(ty: Ty, value: Value) -> u64
    ensures value { result ≡ values.number_at ty value }
    ensures fits { result < 2 ^ values.bits_of ty }
{
    truncate(bits_of(ty), as_number(value))
}

/// A value read at a type: an integer at an integer type, a pointer at a pointer type.
pub fn at_type(ty: Ty, value: Value) -> Value
    ensures value { result ≡ values.at_type ty value }
    ensures fits { FitsIn (sizes.bytes_of ty) result }
{
    match ty {
        Ty::I1 | Ty::I8 | Ty::I16 | Ty::I32 | Ty::I64 => Value::Int(number_at(ty, value)),
        Ty::Ptr => Value::Pointer {
            base: base_of(value),
            offset: truncate(64, offset_of(value)),
        },
    }
}
