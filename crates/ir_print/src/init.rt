// Initialisers.
ghost use Rattle.std.specs.Prelude.{◌≡◌, ◌++◌, codes, OnOk};
ghost use Rattle.text_pieces.specs.declared.stop.Stop.{Stop};
ghost use Rattle.text_pieces.specs.Written.{written, stop_text};
ghost use Rattle.text_pieces.specs.Pieces.{text_of};
ghost use Rattle.ir_tree.specs.Sizes as sizes;
ghost use Rattle.canonical_text.specs.Values.{init_literal, init_pieces, list_end};

use crate::memory::{element_of, push_memory};
use crate::values::push_literal;
use ir_tree::{Init, MemTy};
use pgo_base::NoMemory;
use push_text::{push, push_number};
use text_pieces::{Stop, push_byte_string, push_global, push_stop, stop_at};

fn push_init_literal(out: &mut Vec<u8>, mem: &MemTy, value: u64) -> Result<(), NoMemory>
    ensures { OnOk result (out.new.items ≡ out.old.items ++ written (init_literal (sizes.scalar_of mem.now) value)) }
{
    match mem {
        MemTy::Scalar(ty) => push_literal(out, *ty, value),
        MemTy::Array { .. } => push_number(out, value),
    }
}

// What stands behind the items of a list: its bracket, where no item has it, and what stands behind the list.
fn push_list_end(out: &mut Vec<u8>, empty: bool, stop: Stop) -> Result<(), NoMemory>
    ensures { OnOk result (out.new.items ≡ out.old.items ++ text_of (list_end empty stop)) }
{
    if empty {
        push(out, b"]")?;
    }
    push_stop(out, stop)
}

fn push_null(out: &mut Vec<u8>, stop: Stop) -> Result<(), NoMemory>
    ensures { OnOk result (out.new.items ≡ out.old.items ++ codes "null" ++ stop_text stop) }
{
    push(out, b"null")?;
    push_stop(out, stop)
}

fn push_zero(out: &mut Vec<u8>, stop: Stop) -> Result<(), NoMemory>
    ensures { OnOk result (out.new.items ≡ out.old.items ++ codes "zeroinitializer" ++ stop_text stop) }
{
    push(out, b"zeroinitializer")?;
    push_stop(out, stop)
}

/// Appends an initialiser at a type of memory.
pub(crate) fn push_init(
    out: &mut Vec<u8>,
    mem: &MemTy,
    init: &Init,
    stop: Stop,
) -> Result<(), NoMemory>
    ensures { OnOk result (out.new.items ≡ out.old.items ++ text_of (init_pieces mem.now init.now stop)) }
{
    match init {
        Init::Int(value) => {
            push_init_literal(out, mem, *value)?;
            push_stop(out, stop)
        }
        Init::Null => push_null(out, stop),
        Init::Symbol(name) => {
            push_global(out, name.bytes())?;
            push_stop(out, stop)
        }
        Init::Zero => push_zero(out, stop),
        Init::Bytes(bytes) => {
            push_byte_string(out, bytes.as_slice())?;
            push_stop(out, stop)
        }
        Init::List(inits) => {
            let element = element_of(mem);
            let items = inits.as_slice();
            push(out, b"[")?;
            for (i, one) in items.iter().enumerate() {
                push_memory(out, element, Stop::Space)?;
                let close = stop_at(i, items.len(), Stop::CloseBracket);
                push_init(out, element, one, close)?;
            }
            push_list_end(out, items.is_empty(), stop)
        }
        Init::External => push_stop(out, stop),
    }
}
