// The sizes of types in bytes.
ghost use Rattle.std.specs.Prelude.{◌≡◌, IfOk};
ghost use Rattle.ir_model.specs.Sizes as sizes;

use crate::values::bytes_of;
use ir_tree::MemTy;
use pgo_base::NoMemory;

/// The size of a type. `NoMemory` comes for one of 2^64 bytes or more, which no accepted module has.
pub fn size_of(mem: &MemTy) -> Result<u64, NoMemory>
    ensures { IfOk result (λ size. size ≡ sizes.size_of mem.now) }
{
    match mem {
        MemTy::Scalar(ty) => Ok(u64::from(bytes_of(*ty))),
        MemTy::Array { count, element } => {
            let size = size_of(element.get())?;
            match count.checked_mul(size) {
                Some(all) => Ok(all),
                None => Err(NoMemory),
            }
        }
    }
}

/// The type of an array's elements; what is no array is its own.
pub fn element_of(mem: &MemTy) -> &MemTy
    ensures { result.now ≡ sizes.element_of mem.now }
{
    match mem {
        MemTy::Scalar(_) => mem,
        MemTy::Array { element, .. } => element.get(),
    }
}
