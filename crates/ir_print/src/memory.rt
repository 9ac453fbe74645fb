// Types of memory.
ghost use Rattle.std.specs.Prelude.{◌≡◌, ◌++◌, ◌∷◌, decimal, codes, OnOk};
ghost use Rattle.ir_tree.specs.Sizes as sizes;
ghost use Rattle.text_pieces.specs.declared.stop.Stop.{Stop};
ghost use Rattle.text_pieces.specs.Pieces.{text_of};
ghost use Rattle.canonical_text.specs.Values.{memory_pieces};

use crate::words::type_word;
use ir_tree::MemTy;
use pgo_base::NoMemory;
use push_text::{push, push_number};
use text_pieces::{Stop, push_stop};

/// The type of an array's elements; what is no array is its own.
pub(crate) fn element_of(mem: &MemTy) -> &MemTy
    ensures { result.now ≡ sizes.element_of mem.now }
{
    match mem {
        MemTy::Scalar(_) => mem,
        MemTy::Array { element, .. } => element.get(),
    }
}

fn push_count(out: &mut Vec<u8>, count: u64) -> Result<(), NoMemory>
    ensures { OnOk result (out.new.items ≡ out.old.items ++ 91 ∷ decimal count ++ codes " x ") }
{
    push(out, b"[")?;
    push_number(out, count)?;
    push(out, b" x ")
}

/// Appends T or `[N x MT]`.
pub(crate) fn push_memory(out: &mut Vec<u8>, mem: &MemTy, stop: Stop) -> Result<(), NoMemory>
    ensures { OnOk result (out.new.items ≡ out.old.items ++ text_of (memory_pieces mem.now stop)) }
{
    match mem {
        MemTy::Scalar(ty) => {
            push(out, type_word(*ty))?;
            push_stop(out, stop)
        }
        MemTy::Array { count, element } => {
            push_count(out, *count)?;
            push_memory(out, element.get(), Stop::CloseBracket)?;
            push_stop(out, stop)
        }
    }
}
