//! The tables of the language's words.

ghost use Rattle.std.specs.Prelude.{◌≡◌};
ghost use Rattle.ir_grammar.specs.Tables as table;
ghost use Rattle.ir_grammar.specs.Tables.{by_word, among};
ghost use Rattle.ir_grammar.specs.Instructions as instructions;
ghost use Rattle.ir_grammar.specs.Types as types;

use ir_grammar::{Effect, Ending, Keyword, Marks, NoteKind, Opcode, Past};
use ir_tree::{BinOp, ConvOp, Pred, Ret, Ty};

/// The type that a word names.
pub(crate) fn type_of(text: &[u8]) -> Option<Ty>
    ensures { result ≡ types.type_of text.now }
{
    if text == b"i1".as_slice() {
        Some(Ty::I1)
    } else if text == b"i8".as_slice() {
        Some(Ty::I8)
    } else if text == b"i16".as_slice() {
        Some(Ty::I16)
    } else if text == b"i32".as_slice() {
        Some(Ty::I32)
    } else if text == b"i64".as_slice() {
        Some(Ty::I64)
    } else if text == b"ptr".as_slice() {
        Some(Ty::Ptr)
    } else {
        None
    }
}

/// The word of a type.
pub(crate) fn type_word(ty: Ty) -> &'static [u8]
    ensures { result.now ≡ table.type_word ty }
{
    match ty {
        Ty::I1 => b"i1",
        Ty::I8 => b"i8",
        Ty::I16 => b"i16",
        Ty::I32 => b"i32",
        Ty::I64 => b"i64",
        Ty::Ptr => b"ptr",
    }
}

/// What a function returns.
pub(crate) fn return_of(text: &[u8]) -> Option<Ret>
    ensures { result ≡ types.return_of text.now }
{
    if text == b"void".as_slice() {
        return Some(Ret::Void);
    }
    match type_of(text) {
        Some(ty) => Some(Ret::Value(ty)),
        None => None,
    }
}

/// The operator of a word.
fn operator_of(text: &[u8]) -> Option<BinOp>
    ensures { result ≡ by_word table.operator_words text.now }
{
    if text == b"add".as_slice() {
        Some(BinOp::Add)
    } else if text == b"sub".as_slice() {
        Some(BinOp::Sub)
    } else if text == b"mul".as_slice() {
        Some(BinOp::Mul)
    } else if text == b"udiv".as_slice() {
        Some(BinOp::UDiv)
    } else if text == b"sdiv".as_slice() {
        Some(BinOp::SDiv)
    } else if text == b"urem".as_slice() {
        Some(BinOp::URem)
    } else if text == b"srem".as_slice() {
        Some(BinOp::SRem)
    } else if text == b"shl".as_slice() {
        Some(BinOp::Shl)
    } else if text == b"lshr".as_slice() {
        Some(BinOp::LShr)
    } else if text == b"ashr".as_slice() {
        Some(BinOp::AShr)
    } else if text == b"and".as_slice() {
        Some(BinOp::And)
    } else if text == b"or".as_slice() {
        Some(BinOp::Or)
    } else if text == b"xor".as_slice() {
        Some(BinOp::Xor)
    } else {
        None
    }
}

/// The conversion of a word.
fn conversion_of(text: &[u8]) -> Option<ConvOp>
    ensures { result ≡ by_word table.conversion_words text.now }
{
    if text == b"trunc".as_slice() {
        Some(ConvOp::Trunc)
    } else if text == b"zext".as_slice() {
        Some(ConvOp::ZExt)
    } else if text == b"sext".as_slice() {
        Some(ConvOp::SExt)
    } else if text == b"ptrtoint".as_slice() {
        Some(ConvOp::PtrToInt)
    } else {
        None
    }
}

/// The other words behind `%d =`.
fn other_opcode_of(text: &[u8]) -> Option<Opcode>
    ensures { result ≡ by_word table.opcode_words text.now }
{
    if text == b"icmp".as_slice() {
        Some(Opcode::Compare)
    } else if text == b"freeze".as_slice() {
        Some(Opcode::Freeze)
    } else if text == b"select".as_slice() {
        Some(Opcode::Select)
    } else if text == b"phi".as_slice() {
        Some(Opcode::Phi)
    } else if text == b"alloca".as_slice() {
        Some(Opcode::Alloca)
    } else if text == b"load".as_slice() {
        Some(Opcode::Load)
    } else if text == b"getelementptr".as_slice() {
        Some(Opcode::Gep)
    } else if text == b"call".as_slice() {
        Some(Opcode::Call)
    } else if text == b"tail".as_slice() {
        Some(Opcode::Tail)
    } else if text == b"notail".as_slice() {
        Some(Opcode::Tail)
    } else {
        None
    }
}

/// What stands behind `%d =`, by its first word.
pub(crate) fn opcode_of(text: &[u8]) -> Option<Opcode>
    ensures { result ≡ table.opcode_of text.now }
{
    if let Some(op) = operator_of(text) {
        return Some(Opcode::Binary(op));
    }
    if let Some(op) = conversion_of(text) {
        return Some(Opcode::Convert(op));
    }
    other_opcode_of(text)
}

/// The predicate of a word.
pub(crate) fn predicate_of(text: &[u8]) -> Option<Pred>
    ensures { result ≡ by_word table.predicate_words text.now }
{
    if text == b"eq".as_slice() {
        Some(Pred::Eq)
    } else if text == b"ne".as_slice() {
        Some(Pred::Ne)
    } else if text == b"ugt".as_slice() {
        Some(Pred::Ugt)
    } else if text == b"uge".as_slice() {
        Some(Pred::Uge)
    } else if text == b"ult".as_slice() {
        Some(Pred::Ult)
    } else if text == b"ule".as_slice() {
        Some(Pred::Ule)
    } else if text == b"sgt".as_slice() {
        Some(Pred::Sgt)
    } else if text == b"sge".as_slice() {
        Some(Pred::Sge)
    } else if text == b"slt".as_slice() {
        Some(Pred::Slt)
    } else if text == b"sle".as_slice() {
        Some(Pred::Sle)
    } else {
        None
    }
}

/// An instruction without the name of a result, by its first word.
pub(crate) fn effect_of(text: &[u8]) -> Option<Effect>
    ensures { result ≡ by_word table.effect_words text.now }
{
    if text == b"store".as_slice() {
        Some(Effect::Store)
    } else if text == b"call".as_slice() {
        Some(Effect::Call)
    } else if text == b"tail".as_slice() {
        Some(Effect::Tail)
    } else if text == b"notail".as_slice() {
        Some(Effect::Tail)
    } else if text == b"atomicrmw".as_slice() {
        Some(Effect::Count)
    } else {
        None
    }
}

/// A terminator, by its first word.
pub(crate) fn ending_of(text: &[u8]) -> Option<Ending>
    ensures { result ≡ by_word table.ending_words text.now }
{
    if text == b"br".as_slice() {
        Some(Ending::Br)
    } else if text == b"switch".as_slice() {
        Some(Ending::Switch)
    } else if text == b"ret".as_slice() {
        Some(Ending::Ret)
    } else if text == b"unreachable".as_slice() {
        Some(Ending::Unreachable)
    } else {
        None
    }
}

/// A part of a module, by its first word.
pub(crate) fn keyword_of(text: &[u8]) -> Option<Keyword>
    ensures { result ≡ by_word table.keyword_words text.now }
{
    if text == b"target".as_slice() {
        Some(Keyword::Target)
    } else if text == b"attributes".as_slice() {
        Some(Keyword::Attributes)
    } else if text == b"declare".as_slice() {
        Some(Keyword::Declare)
    } else if text == b"define".as_slice() {
        Some(Keyword::Define)
    } else {
        None
    }
}

/// Whether the word makes a variable constant.
pub(crate) fn variable_of(text: &[u8]) -> Option<bool>
    ensures { result ≡ by_word table.variable_words text.now }
{
    if text == b"global".as_slice() {
        Some(false)
    } else if text == b"constant".as_slice() {
        Some(true)
    } else {
        None
    }
}

/// What a profile node says, by its name.
pub(crate) fn note_kind_of(text: &[u8]) -> Option<NoteKind>
    ensures { result ≡ by_word table.note_names text.now }
{
    if text == b"function_entry_count".as_slice() {
        Some(NoteKind::Entry)
    } else if text == b"branch_weights".as_slice() {
        Some(NoteKind::Weights)
    } else if text == b"VP".as_slice() {
        Some(NoteKind::Targets)
    } else {
        None
    }
}

// ---- what is read past

/// Linkage.
fn is_linkage_word(text: &[u8]) -> bool
    ensures { result ≡ among table.linkage_words text.now }
{
    text == b"private".as_slice()
        || text == b"internal".as_slice()
        || text == b"available_externally".as_slice()
        || text == b"linkonce".as_slice()
        || text == b"weak".as_slice()
        || text == b"common".as_slice()
        || text == b"appending".as_slice()
        || text == b"extern_weak".as_slice()
        || text == b"linkonce_odr".as_slice()
        || text == b"weak_odr".as_slice()
}

/// What may be shared, seen or called how.
fn is_sharing_word(text: &[u8]) -> bool
    ensures { result ≡ among table.sharing_words text.now }
{
    text == b"dso_local".as_slice()
        || text == b"dso_preemptable".as_slice()
        || text == b"default".as_slice()
        || text == b"hidden".as_slice()
        || text == b"protected".as_slice()
        || text == b"unnamed_addr".as_slice()
        || text == b"local_unnamed_addr".as_slice()
        || text == b"ccc".as_slice()
        || text == b"fastcc".as_slice()
        || text == b"coldcc".as_slice()
}

fn is_linkage(text: &[u8]) -> bool
    ensures { result ≡ table.is_linkage text.now }
{
    is_linkage_word(text) || is_sharing_word(text)
}

/// A word of linkage, and whether it is `external`.
fn linkage_of(text: &[u8]) -> Option<bool>
    ensures { result ≡ table.linkage_of text.now }
{
    if is_linkage(text) {
        Some(false)
    } else if text == b"external".as_slice() {
        Some(true)
    } else {
        None
    }
}

/// Attributes of a value that are a word alone.
fn is_value_word(text: &[u8]) -> bool
    ensures { result ≡ among table.value_words text.now }
{
    text == b"noundef".as_slice()
        || text == b"zeroext".as_slice()
        || text == b"signext".as_slice()
        || text == b"inreg".as_slice()
        || text == b"nocapture".as_slice()
        || text == b"noalias".as_slice()
        || text == b"nonnull".as_slice()
        || text == b"readonly".as_slice()
        || text == b"readnone".as_slice()
        || text == b"writeonly".as_slice()
}

/// The other attributes of a value.
fn other_value_past(text: &[u8]) -> Option<Past>
    ensures { result ≡ by_word table.other_value_words text.now }
{
    if text == b"returned".as_slice() {
        Some(Past::Alone)
    } else if text == b"immarg".as_slice() {
        Some(Past::Alone)
    } else if text == b"nofree".as_slice() {
        Some(Past::Alone)
    } else if text == b"nosync".as_slice() {
        Some(Past::Alone)
    } else if text == b"align".as_slice() {
        Some(Past::Number)
    } else if text == b"dereferenceable".as_slice() {
        Some(Past::Parens)
    } else if text == b"dereferenceable_or_null".as_slice() {
        Some(Past::Parens)
    } else if text == b"captures".as_slice() {
        Some(Past::Parens)
    } else if text == b"range".as_slice() {
        Some(Past::Parens)
    } else {
        None
    }
}

/// An attribute of a value.
pub(crate) fn value_past(text: &[u8]) -> Option<Past>
    ensures { result ≡ table.value_past text.now }
{
    if is_value_word(text) {
        return Some(Past::Alone);
    }
    other_value_past(text)
}

/// A word before a return type.
pub(crate) fn return_past(text: &[u8]) -> Option<Past>
    ensures { result ≡ table.return_past text.now }
{
    if is_linkage(text) {
        return Some(Past::Alone);
    }
    if text == b"external".as_slice() {
        return Some(Past::Alone);
    }
    value_past(text)
}

/// Attributes of a function that are a word alone.
fn is_function_word(text: &[u8]) -> bool
    ensures { result ≡ among table.function_words text.now }
{
    text == b"unnamed_addr".as_slice()
        || text == b"local_unnamed_addr".as_slice()
        || text == b"nounwind".as_slice()
        || text == b"noinline".as_slice()
        || text == b"alwaysinline".as_slice()
        || text == b"optnone".as_slice()
        || text == b"uwtable".as_slice()
        || text == b"norecurse".as_slice()
        || text == b"willreturn".as_slice()
        || text == b"mustprogress".as_slice()
        || text == b"cold".as_slice()
}

/// More of them.
fn is_more_function_word(text: &[u8]) -> bool
    ensures { result ≡ among table.more_function_words text.now }
{
    text == b"hot".as_slice()
        || text == b"noreturn".as_slice()
        || text == b"nofree".as_slice()
        || text == b"nosync".as_slice()
        || text == b"readnone".as_slice()
        || text == b"readonly".as_slice()
        || text == b"minsize".as_slice()
        || text == b"optsize".as_slice()
        || text == b"ssp".as_slice()
        || text == b"sspstrong".as_slice()
        || text == b"sspreq".as_slice()
}

/// The other attributes of a function.
fn other_function_past(text: &[u8]) -> Option<Past>
    ensures { result ≡ by_word table.other_function_words text.now }
{
    if text == b"nocallback".as_slice() {
        Some(Past::Alone)
    } else if text == b"memory".as_slice() {
        Some(Past::Parens)
    } else if text == b"section".as_slice() {
        Some(Past::Text)
    } else if text == b"comdat".as_slice() {
        Some(Past::Alone)
    } else if text == b"align".as_slice() {
        Some(Past::Number)
    } else {
        None
    }
}

/// An attribute of a function.
pub(crate) fn function_past(text: &[u8]) -> Option<Past>
    ensures { result ≡ table.function_past text.now }
{
    if is_function_word(text) {
        return Some(Past::Alone);
    }
    if is_more_function_word(text) {
        return Some(Past::Alone);
    }
    other_function_past(text)
}

/// What stands behind a comma after a global variable.
pub(crate) fn variable_past(text: &[u8]) -> Option<Past>
    ensures { result ≡ by_word table.variable_past text.now }
{
    if text == b"align".as_slice() {
        Some(Past::Number)
    } else if text == b"section".as_slice() {
        Some(Past::Text)
    } else if text == b"comdat".as_slice() {
        Some(Past::Alone)
    } else {
        None
    }
}

/// What stands behind a comma after an instruction that may say its alignment.
pub(crate) fn aligned_past(text: &[u8]) -> Option<Past>
    ensures { result ≡ by_word table.aligned_past text.now }
{
    if text == b"align".as_slice() {
        Some(Past::Number)
    } else {
        None
    }
}

/// A flag of `getelementptr`, and whether it is `inbounds`.
fn gep_flag(text: &[u8]) -> Option<bool>
    ensures { result ≡ by_word instructions.gep_words text.now }
{
    if text == b"inbounds".as_slice() {
        Some(true)
    } else if text == b"nusw".as_slice() {
        Some(false)
    } else if text == b"nuw".as_slice() {
        Some(false)
    } else {
        None
    }
}

/// A word among several of which one is marked, and whether it is the marked one.
pub(crate) fn marked_of(which: Marks, text: &[u8]) -> Option<bool>
    ensures { result ≡ instructions.marked_of which text.now }
{
    match which {
        Marks::External => linkage_of(text),
        Marks::Inbounds => gep_flag(text),
    }
}
