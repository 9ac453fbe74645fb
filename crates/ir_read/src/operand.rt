//! Literals and operands.

ghost use Rattle.std.specs.Prelude.{◌≡◌};
ghost use Rattle.std.specs.Str.Parse.{digits_value};
ghost use Rattle.ir_tree.specs.Types.{literal_of};
ghost use Rattle.ir_grammar.specs.Types as grammar;
ghost use Rattle.ir_read.specs.Reads.{Reads};

use crate::cursor::Cursor;
use crate::item::Item;
use crate::stop::Stop;
use crate::types::value_type;
use crate::word::decimal;
use ir_tree::{Name, Operand, Ty};
use std::alloc::Global;

/// The literal of the type that these digits are.
pub(crate) fn literal_of(ty: Ty, minus: bool, digits: &[u8]) -> Option<u64>
    ensures { result ≡ literal_of ty minus (digits_value 10 digits.now) }
{
    ty.literal(minus, decimal(digits)?)
}

/// `true` and `false`.
fn truth_of(text: &[u8]) -> Option<u64>
    ensures { result ≡ grammar.truth_of text.now }
{
    if text == b"true".as_slice() {
        Some(1)
    } else if text == b"false".as_slice() {
        Some(0)
    } else {
        None
    }
}

/// The literal of the type that a word is.
pub(crate) fn literal_word(ty: Ty, text: &[u8]) -> Option<u64>
    ensures { result ≡ grammar.literal_word ty text.now }
{
    match ty {
        Ty::I1 => truth_of(text),
        Ty::I8 | Ty::I16 | Ty::I32 | Ty::I64 | Ty::Ptr => None,
    }
}

/// A literal of the type.
#[tactic(auto, unfolding(ir_grammar::specs::Types::literal))]
pub(crate) fn literal(toks: &mut Cursor, ty: Ty) -> Result<u64, Stop>
    ensures { Reads result toks.old toks.new (grammar.literal ty).read }
{
    match toks.next() {
        Some(Item::Number { minus, digits }) => literal_of(ty, minus, digits).ok_or(Stop::Syntax),
        Some(Item::Word(text)) => literal_word(ty, text).ok_or(Stop::Syntax),
        _ => Err(Stop::Syntax),
    }
}

/// The operand of the type that a word is.
fn operand_word(ty: Ty, text: &[u8]) -> Option<Operand>
    ensures { result ≡ grammar.operand_word ty text.now }
{
    if text == b"null".as_slice() {
        return Some(Operand::Null);
    }
    match literal_word(ty, text) {
        Some(value) => Some(Operand::Int(value)),
        None => None,
    }
}

/// A local, a global, `null` or a literal of the type.
#[tactic(auto, unfolding(ir_grammar::specs::Types::operand))]
pub(crate) fn operand(alloc: Global, toks: &mut Cursor, ty: Ty) -> Result<Operand, Stop>
    ensures { Reads result toks.old toks.new (grammar.operand ty).read }
{
    match toks.next() {
        Some(Item::Local(name)) => Ok(Operand::Local(Name::of(alloc, name)?)),
        Some(Item::Global(name)) => Ok(Operand::Global(Name::of(alloc, name)?)),
        Some(Item::Number { minus, digits }) => match literal_of(ty, minus, digits) {
            Some(value) => Ok(Operand::Int(value)),
            None => Err(Stop::Syntax),
        },
        Some(Item::Word(text)) => operand_word(ty, text).ok_or(Stop::Syntax),
        _ => Err(Stop::Syntax),
    }
}

/// A type and an operand of it.
#[tactic(auto, unfolding(ir_grammar::specs::Types::typed_operand))]
pub(crate) fn typed_operand(alloc: Global, toks: &mut Cursor) -> Result<(Ty, Operand), Stop>
    ensures { Reads result toks.old toks.new grammar.typed_operand.read }
{
    let ty = value_type(toks)?;
    let value = operand(alloc, toks, ty)?;
    Ok((ty, value))
}
