//! A pointer in memory.
use crate::value::{Base, Value};

/// A pointer that was stored: `offset` bytes past its base.
#[derive(Clone, Copy, Debug)]
pub struct StoredPointer {
    pub base: Base,
    pub offset: u64,
}

impl StoredPointer {
    ghost use Rattle.std.specs.Prelude.{◌≡◌};
    ghost use Rattle.ir_memory.specs.declared.value.Value.TheVariants.{Pointer};

    pub fn value(self) -> Value
        ensures { result ≡ Pointer self.base self.offset }
    {
        Value::Pointer {
            base: self.base,
            offset: self.offset,
        }
    }
}

pub const NULL: StoredPointer = StoredPointer {
    base: Base::Null,
    offset: 0,
};
