// Literals and operands.
ghost use Rattle.std.specs.Prelude.{◌≡◌, ◌++◌, ◌∷◌, cond, nat_eq, nat_lt, codes, true, false, OnOk};
ghost use Rattle.ir_lex.specs.Tokens.{Number};
ghost use Rattle.text_pieces.specs.declared.stop.Stop.{Stop};
ghost use Rattle.text_pieces.specs.Written.{written};
ghost use Rattle.text_pieces.specs.Pieces.{text_of};
ghost use Rattle.text_pieces.specs.Lists.{items, parted};
ghost use Rattle.canonical_text.specs.Words as words;
ghost use Rattle.canonical_text.specs.Values.{literal_token, operand_token, signed_token, typed_pieces};

use crate::words::type_word;
use ir_tree::{Operand, Ty};
use pgo_base::NoMemory;
use push_text::{push, push_number};
use text_pieces::{Stop, push_global, push_local, push_negative, push_stop, stop_at};

// A value where those from `half` on are negative; what is below 0 by so much is written with a sign.
fn push_halved(out: &mut Vec<u8>, value: u64, half: u64, below: u64) -> Result<(), NoMemory>
    ensures { OnOk result (out.new.items ≡ out.old.items ++ written (cond (nat_lt value half) (Number false value) (Number true below))) }
{
    if value < half {
        push_number(out, value)
    } else {
        push_negative(out, below)
    }
}

fn push_long(out: &mut Vec<u8>, value: u64) -> Result<(), NoMemory>
    ensures { OnOk result (out.new.items ≡ out.old.items ++ written (signed_token 64 value)) }
{
    if value < 1 << 63 {
        return push_number(out, value);
    }
    push_negative(out, (u64::MAX - value) + 1)
}

fn truth_word(value: u64) -> &'static [u8]
    ensures { result.now ≡ cond (nat_eq value 0) (codes "false") (codes "true") }
{
    if value == 0 { b"false" } else { b"true" }
}

/// Appends a literal of the type.
#[tactic(auto, unfolding(canonical_text::specs::Values::literal_token))]
pub(crate) fn push_literal(out: &mut Vec<u8>, ty: Ty, value: u64) -> Result<(), NoMemory>
    ensures { OnOk result (out.new.items ≡ out.old.items ++ written (literal_token ty value)) }
{
    match ty {
        Ty::I1 => push(out, truth_word(value)),
        Ty::I8 => push_halved(out, value, 128, 256u64.saturating_sub(value)),
        Ty::I16 => push_halved(out, value, 32768, 65536u64.saturating_sub(value)),
        Ty::I32 => push_halved(out, value, 2147483648, 4294967296u64.saturating_sub(value)),
        Ty::I64 => push_long(out, value),
        Ty::Ptr => push_number(out, value),
    }
}

/// Appends an operand, where its type is known.
#[tactic(auto, unfolding(canonical_text::specs::Values::operand_token))]
pub(crate) fn push_operand(out: &mut Vec<u8>, ty: Ty, value: &Operand) -> Result<(), NoMemory>
    ensures { OnOk result (out.new.items ≡ out.old.items ++ written (operand_token ty value.now)) }
{
    match value {
        Operand::Int(value) => push_literal(out, ty, *value),
        Operand::Null => push(out, b"null"),
        Operand::Local(name) => push_local(out, name.bytes()),
        Operand::Global(name) => push_global(out, name.bytes()),
    }
}

/// Appends `T V`.
pub(crate) fn push_typed(out: &mut Vec<u8>, ty: Ty, value: &Operand) -> Result<(), NoMemory>
    ensures { OnOk result (out.new.items ≡ out.old.items ++ words.type_word ty ++ 32 ∷ written (operand_token ty value.now)) }
{
    push(out, type_word(ty))?;
    push(out, b" ")?;
    push_operand(out, ty, value)
}

fn push_typed_item(out: &mut Vec<u8>, typed: &(Ty, Operand), stop: Stop) -> Result<(), NoMemory>
    ensures { OnOk result (out.new.items ≡ out.old.items ++ text_of (typed_pieces typed.now stop)) }
{
    push_typed(out, typed.0, &typed.1)?;
    push_stop(out, stop)
}

fn push_typed_items(out: &mut Vec<u8>, list: &[(Ty, Operand)], close: Stop) -> Result<(), NoMemory>
    ensures { OnOk result (out.new.items ≡ out.old.items ++ text_of (items typed_pieces close list.now)) }
{
    for (i, typed) in list.iter().enumerate() {
        push_typed_item(out, typed, stop_at(i, list.len(), close))?;
    }
    Ok(())
}

/// Appends `T V, ..` and what closes the list.
pub(crate) fn push_typed_list(
    out: &mut Vec<u8>,
    list: &[(Ty, Operand)],
    close: Stop,
) -> Result<(), NoMemory>
    ensures { OnOk result (out.new.items ≡ out.old.items ++ text_of (parted typed_pieces close list.now)) }
{
    if list.is_empty() {
        return push_stop(out, close);
    }
    push_typed_items(out, list, close)
}
