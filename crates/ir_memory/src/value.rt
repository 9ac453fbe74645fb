//! Values, and the addresses of pointers.
ghost use Rattle.std.specs.Prelude.{◌≡◌};

/// What a register holds.
#[derive(Clone, Copy, Debug, PartialEq, Eq)]
pub enum Value {
    /// An integer, as a number below 2 to its width.
    Int(u64),
    /// A pointer: `offset` bytes past its base, modulo 2^64.
    Pointer { base: Base, offset: u64 },
}

/// What a pointer is based on.
#[derive(Clone, Copy, Debug, PartialEq, Eq)]
pub enum Base {
    Null,
    /// A function, by its number.
    Function(u32),
    /// An object of the memory, by its number.
    Object(u64),
}

ghost use Rattle.ir_memory.specs.Address.{address_of};

/// The address of a pointer, modulo 2^64: null has address 0, function k has 16 * (k + 1), and object i has
/// (i + 1) * 2^32.
pub fn address(base: Base, offset: u64) -> u64
    ensures { result ≡ address_of base offset }
{
    match base {
        Base::Null => offset,
        Base::Function(k) => (16 * (u64::from(k) + 1)).wrapping_add(offset),
        Base::Object(i) => i.wrapping_add(1).wrapping_mul(1 << 32).wrapping_add(offset),
    }
}
