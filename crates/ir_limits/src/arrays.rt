// The sizes of types, and the first array type that is too large.
ghost use Rattle.std.specs.Prelude.{◌≡◌, option_map};
ghost use Rattle.ir_rules.specs.Limits as spec;
ghost use Rattle.ir_rules.specs.Sizes as sizes;
ghost use Rattle.ir_rules.specs.declared.place.LimitKind.TheVariants.{Object};
ghost use Rattle.spec_lists.specs.Each.{first_of};

use ir_tree::{MemTy, Ty};

const OBJECT_MOST: u64 = 1_048_576;

/// The bytes of a type, or 18446744073709551615 where they are more.
pub(crate) fn size_of(mem: &MemTy) -> u64
    ensures { result ≡ spec.reported (sizes.size_of mem.now) }
{
    match mem {
        MemTy::Scalar(ty) => bytes_of(*ty),
        MemTy::Array { count, element } => count.saturating_mul(size_of(element.get())),
    }
}

fn bytes_of(ty: Ty) -> u64
    ensures { result ≡ sizes.bytes_of ty }
{
    match ty {
        Ty::I1 => 1,
        Ty::I8 => 1,
        Ty::I16 => 2,
        Ty::I32 => 4,
        Ty::I64 => 8,
        Ty::Ptr => 8,
    }
}

/// The first array type in a type that is too large, by its bytes; the outer one comes first.
pub(crate) fn array_above(mem: &MemTy) -> Option<u64>
    ensures { option_map (λ found. (Object, found)) result ≡ first_of (spec.each_above Object 1048576 (λ size. size) (spec.array_sizes mem.now)) }
{
    match mem {
        MemTy::Scalar(_) => None,
        MemTy::Array { element, .. } => {
            let size = size_of(mem);
            if size > OBJECT_MOST {
                return Some(size);
            }
            array_above(element.get())
        }
    }
}
