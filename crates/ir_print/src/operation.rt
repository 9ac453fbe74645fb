// Instructions that compute a value from values, a function for each.
ghost use Rattle.std.specs.Prelude.{◌≡◌, ◌++◌, [], codes, OnOk};
ghost use Rattle.ir_tree.specs.declared.types.Instr.TheVariants.{Binary, Compare, Convert, Freeze, Select, Phi};
ghost use Rattle.ir_lex.specs.Tokens.{Local};
ghost use Rattle.text_pieces.specs.declared.stop.Stop.{Stop};
ghost use Rattle.text_pieces.specs.declared.stop.Stop.TheVariants.{Line};
ghost use Rattle.text_pieces.specs.Written.{written};
ghost use Rattle.text_pieces.specs.Pieces.{text_of};
ghost use Rattle.text_pieces.specs.Lists.{items, parted};
ghost use Rattle.canonical_text.specs.Instructions as spec;
ghost use Rattle.canonical_text.specs.Instructions.{instr_pieces};

use crate::node::push_line_end;
use crate::nodes::Nodes;
use crate::values::{push_operand, push_typed};
use crate::words::{conversion_word, operator_word, predicate_word, type_word};
use ir_tree::{BinOp, ConvOp, Flags, Name, Operand, Pred, Prof, Ty};
use pgo_base::NoMemory;
use push_text::push;
use sqlite_items::Boxed;
use text_pieces::{Stop, push_local, push_stop, stop_at};

/// Appends `%d = `, behind two blanks.
pub(crate) fn push_named(out: &mut Vec<u8>, dest: &Name) -> Result<(), NoMemory>
    ensures { OnOk result (out.new.items ≡ out.old.items ++ codes "  " ++ written (Local dest.now) ++ codes " = ") }
{
    push(out, b"  ")?;
    push_local(out, dest.bytes())?;
    push(out, b" = ")
}

/// Appends a word and a blank where the flag is set.
pub(crate) fn push_flag(out: &mut Vec<u8>, set: bool, word: &[u8]) -> Result<(), NoMemory>
    ensures { OnOk result (out.new.items ≡ out.old.items ++ spec.flag_text set word.now) }
{
    if set {
        push(out, word)?;
        return push(out, b" ");
    }
    Ok(())
}

fn push_flags(out: &mut Vec<u8>, flags: Flags) -> Result<(), NoMemory>
    ensures { OnOk result (out.new.items ≡ out.old.items ++ spec.flag_text flags.nuw (codes "nuw") ++ spec.flag_text flags.nsw (codes "nsw") ++ spec.flag_text flags.exact (codes "exact")) }
{
    push_flag(out, flags.nuw, b"nuw")?;
    push_flag(out, flags.nsw, b"nsw")?;
    push_flag(out, flags.exact, b"exact")
}

// `T V, V`
fn push_two(out: &mut Vec<u8>, ty: Ty, left: &Operand, right: &Operand) -> Result<(), NoMemory>
    ensures { OnOk result (out.new.items ≡ out.old.items ++ text_of (spec.two_pieces ty left.now right.now)) }
{
    push_typed(out, ty, left)?;
    push(out, b", ")?;
    push_operand(out, ty, right)?;
    push(out, b"\n")
}

fn push_flagged_two(
    out: &mut Vec<u8>,
    flags: Flags,
    ty: Ty,
    left: &Operand,
    right: &Operand,
) -> Result<(), NoMemory>
    ensures { OnOk result (out.new.items ≡ out.old.items ++ text_of (spec.all_flags flags (spec.two_pieces ty left.now right.now))) }
{
    push_flags(out, flags)?;
    push_two(out, ty, left, right)
}

pub(crate) fn push_binary(
    out: &mut Vec<u8>,
    dest: &Name,
    op: BinOp,
    flags: Flags,
    ty: Ty,
    left: &Operand,
    right: &Operand,
) -> Result<(), NoMemory>
    ensures { OnOk result (out.new.items ≡ out.old.items ++ text_of (instr_pieces [] (Binary dest.now op flags ty left.now right.now))) }
{
    push_named(out, dest)?;
    push(out, operator_word(op))?;
    push(out, b" ")?;
    push_flagged_two(out, flags, ty, left, right)
}

pub(crate) fn push_compare(
    out: &mut Vec<u8>,
    dest: &Name,
    pred: Pred,
    ty: Ty,
    left: &Operand,
    right: &Operand,
) -> Result<(), NoMemory>
    ensures { OnOk result (out.new.items ≡ out.old.items ++ text_of (instr_pieces [] (Compare dest.now pred ty left.now right.now))) }
{
    push_named(out, dest)?;
    push(out, b"icmp ")?;
    push(out, predicate_word(pred))?;
    push(out, b" ")?;
    push_two(out, ty, left, right)
}

// `T V to T`
fn push_conversion(out: &mut Vec<u8>, from: Ty, value: &Operand, to: Ty) -> Result<(), NoMemory>
    ensures { OnOk result (out.new.items ≡ out.old.items ++ text_of (spec.conversion_pieces from value.now to)) }
{
    push_typed(out, from, value)?;
    push(out, b" to ")?;
    push(out, type_word(to))?;
    push(out, b"\n")
}

fn push_flagged_conversion(
    out: &mut Vec<u8>,
    flags: Flags,
    from: Ty,
    value: &Operand,
    to: Ty,
) -> Result<(), NoMemory>
    ensures { OnOk result (out.new.items ≡ out.old.items ++ text_of (spec.all_flags flags (spec.conversion_pieces from value.now to))) }
{
    push_flags(out, flags)?;
    push_conversion(out, from, value, to)
}

pub(crate) fn push_convert(
    out: &mut Vec<u8>,
    dest: &Name,
    op: ConvOp,
    flags: Flags,
    from: Ty,
    value: &Operand,
    to: Ty,
) -> Result<(), NoMemory>
    ensures { OnOk result (out.new.items ≡ out.old.items ++ text_of (instr_pieces [] (Convert dest.now op flags from value.now to))) }
{
    push_named(out, dest)?;
    push(out, conversion_word(op))?;
    push(out, b" ")?;
    push_flagged_conversion(out, flags, from, value, to)
}

pub(crate) fn push_freeze(
    out: &mut Vec<u8>,
    dest: &Name,
    ty: Ty,
    value: &Operand,
) -> Result<(), NoMemory>
    ensures { OnOk result (out.new.items ≡ out.old.items ++ text_of (instr_pieces [] (Freeze dest.now ty value.now))) }
{
    push_named(out, dest)?;
    push(out, b"freeze ")?;
    push_typed(out, ty, value)?;
    push(out, b"\n")
}

// `T V, T V`, and the end of the line
#[tactic(auto, unfolding(canonical_text::specs::Notes::line_end))]
fn push_choices(
    out: &mut Vec<u8>,
    nodes: &Nodes,
    ty: Ty,
    first: &Operand,
    second: &Operand,
    prof: &Option<Boxed<Prof>>,
) -> Result<(), NoMemory>
    ensures { OnOk result (out.new.items ≡ out.old.items ++ text_of (spec.choice_pieces nodes.now ty first.now second.now prof.now)) }
{
    push_typed(out, ty, first)?;
    push(out, b", ")?;
    push_typed(out, ty, second)?;
    push_line_end(out, nodes, prof)
}

pub(crate) fn push_select(
    out: &mut Vec<u8>,
    nodes: &Nodes,
    dest: &Name,
    cond: &Operand,
    ty: Ty,
    first: &Operand,
    second: &Operand,
    prof: &Option<Boxed<Prof>>,
) -> Result<(), NoMemory>
    ensures { OnOk result (out.new.items ≡ out.old.items ++ text_of (instr_pieces nodes.now (Select dest.now cond.now ty first.now second.now prof.now))) }
{
    push_named(out, dest)?;
    push(out, b"select i1 ")?;
    push_operand(out, Ty::I1, cond)?;
    push(out, b", ")?;
    push_choices(out, nodes, ty, first, second, prof)
}

fn push_entry(
    out: &mut Vec<u8>,
    ty: Ty,
    entry: &(Operand, Name),
    stop: Stop,
) -> Result<(), NoMemory>
    ensures { OnOk result (out.new.items ≡ out.old.items ++ text_of (spec.entry_pieces ty entry.now stop)) }
{
    push(out, b"[ ")?;
    push_operand(out, ty, &entry.0)?;
    push(out, b", ")?;
    push_local(out, entry.1.bytes())?;
    push(out, b" ]")?;
    push_stop(out, stop)
}

fn push_entries(out: &mut Vec<u8>, ty: Ty, entries: &[(Operand, Name)]) -> Result<(), NoMemory>
    ensures { OnOk result (out.new.items ≡ out.old.items ++ text_of (items (spec.entry_pieces ty) Line entries.now)) }
{
    for (i, entry) in entries.iter().enumerate() {
        push_entry(out, ty, entry, stop_at(i, entries.len(), Stop::Line))?;
    }
    Ok(())
}

fn push_entry_list(out: &mut Vec<u8>, ty: Ty, entries: &[(Operand, Name)]) -> Result<(), NoMemory>
    ensures { OnOk result (out.new.items ≡ out.old.items ++ text_of (parted (spec.entry_pieces ty) Line entries.now)) }
{
    if entries.is_empty() {
        return push(out, b"\n");
    }
    push_entries(out, ty, entries)
}

pub(crate) fn push_phi(
    out: &mut Vec<u8>,
    dest: &Name,
    ty: Ty,
    entries: &[(Operand, Name)],
) -> Result<(), NoMemory>
    ensures { OnOk result (out.new.items ≡ out.old.items ++ text_of (instr_pieces [] (Phi dest.now ty entries.now))) }
{
    push_named(out, dest)?;
    push(out, b"phi ")?;
    push(out, type_word(ty))?;
    push(out, b" ")?;
    push_entry_list(out, ty, entries)
}
