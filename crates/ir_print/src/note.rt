// Profile notes, as the text of their nodes.
ghost use Rattle.std.specs.Prelude.{◌≡◌, ◌++◌, ◌∷◌, codes, OnOk, IfOk};
ghost use Rattle.ir_tree.specs.declared.types.Prof.TheVariants.{Entry, Weights, Targets};
ghost use Rattle.ir_tree.specs.declared.types.Ty.TheVariants.{I64};
ghost use Rattle.text_pieces.specs.declared.stop.Stop.{Stop};
ghost use Rattle.text_pieces.specs.declared.stop.Stop.TheVariants.{CloseBrace};
ghost use Rattle.text_pieces.specs.Written.{written, stop_text};
ghost use Rattle.text_pieces.specs.Pieces.{text_of};
ghost use Rattle.text_pieces.specs.Lists.{items, parted, stop_behind};
ghost use Rattle.canonical_text.specs.Values.{literal_token};
ghost use Rattle.canonical_text.specs.Notes.{note_pieces, note_text, pair_pieces, weight_pieces};

use crate::values::push_literal;
use ir_tree::{Prof, Ty};
use pgo_base::NoMemory;
use push_text::push;
use std::alloc::Global;
use text_pieces::{Stop, push_stop, stop_at};

fn push_entry(out: &mut Vec<u8>, count: u64) -> Result<(), NoMemory>
    ensures { OnOk result (out.new.items ≡ out.old.items ++ text_of (note_pieces (Entry count))) }
{
    push(out, b"!{!\"function_entry_count\", i64 ")?;
    push_literal(out, Ty::I64, count)?;
    push(out, b"}")
}

fn push_weight(out: &mut Vec<u8>, weight: u32, stop: Stop) -> Result<(), NoMemory>
    ensures { OnOk result (out.new.items ≡ out.old.items ++ text_of (weight_pieces weight stop)) }
{
    push(out, b"i32 ")?;
    push_literal(out, Ty::I32, u64::from(weight))?;
    push_stop(out, stop)
}

fn push_weight_items(out: &mut Vec<u8>, weights: &[u32]) -> Result<(), NoMemory>
    ensures { OnOk result (out.new.items ≡ out.old.items ++ text_of (items weight_pieces CloseBrace weights.now)) }
{
    for (i, weight) in weights.iter().enumerate() {
        push_weight(out, *weight, stop_at(i, weights.len(), Stop::CloseBrace))?;
    }
    Ok(())
}

fn push_weight_list(out: &mut Vec<u8>, weights: &[u32]) -> Result<(), NoMemory>
    ensures { OnOk result (out.new.items ≡ out.old.items ++ text_of (parted weight_pieces CloseBrace weights.now)) }
{
    if weights.is_empty() {
        return push(out, b"}");
    }
    push_weight_items(out, weights)
}

fn push_weights(out: &mut Vec<u8>, weights: &[u32]) -> Result<(), NoMemory>
    ensures { OnOk result (out.new.items ≡ out.old.items ++ text_of (note_pieces (Weights weights.now))) }
{
    push(out, b"!{!\"branch_weights\", ")?;
    push_weight_list(out, weights)
}

// `i64 n`
fn push_wide(out: &mut Vec<u8>, n: u64) -> Result<(), NoMemory>
    ensures { OnOk result (out.new.items ≡ out.old.items ++ codes "i64 " ++ written (literal_token I64 n)) }
{
    push(out, b"i64 ")?;
    push_literal(out, Ty::I64, n)
}

fn push_pair(out: &mut Vec<u8>, pair: &(u64, u64), stop: Stop) -> Result<(), NoMemory>
    ensures { OnOk result (out.new.items ≡ out.old.items ++ text_of (pair_pieces pair.now stop)) }
{
    push_wide(out, pair.0)?;
    push(out, b", ")?;
    push_wide(out, pair.1)?;
    push_stop(out, stop)
}

fn push_pairs(out: &mut Vec<u8>, list: &[(u64, u64)]) -> Result<(), NoMemory>
    ensures { OnOk result (out.new.items ≡ out.old.items ++ text_of (items pair_pieces CloseBrace list.now)) }
{
    for (i, pair) in list.iter().enumerate() {
        push_pair(out, pair, stop_at(i, list.len(), Stop::CloseBrace))?;
    }
    Ok(())
}

fn push_first_stop(out: &mut Vec<u8>, list: &[(u64, u64)]) -> Result<(), NoMemory>
    ensures { OnOk result (out.new.items ≡ out.old.items ++ stop_text (stop_behind CloseBrace list.now)) }
{
    if list.is_empty() {
        push(out, b"}")
    } else {
        push(out, b", ")
    }
}

fn push_targets(out: &mut Vec<u8>, total: u64, list: &[(u64, u64)]) -> Result<(), NoMemory>
    ensures { OnOk result (out.new.items ≡ out.old.items ++ text_of (note_pieces (Targets total list.now))) }
{
    push(out, b"!{!\"VP\", i32 0, i64 ")?;
    push_literal(out, Ty::I64, total)?;
    push_first_stop(out, list)?;
    push_pairs(out, list)
}

/// Appends the node of a note.
pub(crate) fn push_note(out: &mut Vec<u8>, note: &Prof) -> Result<(), NoMemory>
    ensures { OnOk result (out.new.items ≡ out.old.items ++ text_of (note_pieces note.now)) }
{
    match note {
        Prof::Entry(count) => push_entry(out, *count),
        Prof::Weights(weights) => push_weights(out, weights.as_slice()),
        Prof::Targets { total, list } => push_targets(out, *total, list.as_slice()),
    }
}

/// The text of a note, which no other note has.
#[tactic(auto, unfolding(canonical_text::specs::Notes::note_text))]
pub(crate) fn note_text(alloc: Global, note: &Prof) -> Result<Vec<u8>, NoMemory>
    ensures { IfOk result (λ text. text.items ≡ note_text note.now) }
{
    let mut text = Vec::new(alloc);
    push_note(&mut text, note)?;
    Ok(text)
}
