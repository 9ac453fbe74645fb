//! Profile notes: nodes of three shapes, and the attachments that name them.

ghost use Rattle.std.specs.Prelude.{◌≡◌, IfOk, IfErr};
ghost use Rattle.ir_grammar.specs.Notes as grammar;
ghost use Rattle.ir_grammar.specs.Words.{more_of, comma_item};
ghost use Rattle.ir_grammar.specs.Types as types;
ghost use Rattle.ir_tree.specs.Types.{literal_of};
ghost use Rattle.ir_tree.specs.declared.types.Ty.TheVariants.{I32};
ghost use Rattle.std.specs.Str.Parse.{digits_value};
ghost use Rattle.ir_read.specs.declared.stop.Stop.TheVariants as stops;
ghost use Rattle.ir_read.specs.Items.{token_of};
ghost use Rattle.ir_read.specs.Reads.{Reads};

use crate::cursor::Cursor;
use crate::item::Item;
use crate::nodes::Nodes;
use crate::operand::{literal, literal_of, literal_word};
use crate::past::{attachment, function_meaning, past_behind};
use crate::stop::Stop;
use crate::table::note_kind_of;
use crate::types::this_type;
use crate::word::{count, mark, sign};
use ir_grammar::{NoteKind, Past};
use ir_tree::{Prof, Seq, Ty};
use sqlite_items::Boxed;
use std::alloc::Global;

// ---- the shapes of nodes

/// This very literal of a type.
#[tactic(auto, unfolding(ir_grammar::specs::Notes::this_literal))]
pub(crate) fn this_literal(toks: &mut Cursor, ty: Ty, n: u64) -> Result<(), Stop>
    ensures { Reads result toks.old toks.new (grammar.this_literal ty n).read }
{
    match toks.next() {
        Some(Item::Number { minus, digits }) => match literal_of(ty, minus, digits) {
            Some(found) if found == n => Ok(()),
            _ => Err(Stop::Syntax),
        },
        Some(Item::Word(text)) => match literal_word(ty, text) {
            Some(found) if found == n => Ok(()),
            _ => Err(Stop::Syntax),
        },
        _ => Err(Stop::Syntax),
    }
}

/// The literal of 32 bits that these digits are.
fn weight_of(minus: bool, digits: &[u8]) -> Option<u32>
    ensures { result ≡ literal_of I32 minus (digits_value 10 digits.now) }
{
    match literal_of(Ty::I32, minus, digits) {
        Some(n) => Some(n as u32),
        None => None,
    }
}

#[tactic(auto, unfolding(ir_grammar::specs::Types::literal))]
fn weight_literal(toks: &mut Cursor) -> Result<u32, Stop>
    ensures { Reads result toks.old toks.new (types.literal I32).read }
{
    match toks.next() {
        Some(Item::Number { minus, digits }) => weight_of(minus, digits).ok_or(Stop::Syntax),
        _ => Err(Stop::Syntax),
    }
}

#[tactic(auto, unfolding(ir_grammar::specs::Notes::weight))]
fn weight(toks: &mut Cursor) -> Result<u32, Stop>
    ensures { Reads result toks.old toks.new grammar.weight.read }
{
    this_type(toks, Ty::I32)?;
    weight_literal(toks)
}

#[tactic(auto, unfolding(ir_grammar::specs::Notes::wide))]
fn wide(toks: &mut Cursor) -> Result<u64, Stop>
    ensures { Reads result toks.old toks.new grammar.wide.read }
{
    this_type(toks, Ty::I64)?;
    literal(toks, Ty::I64)
}

#[tactic(auto, unfolding(ir_grammar::specs::Notes::entry_note))]
fn entry_note(toks: &mut Cursor) -> Result<Prof, Stop>
    ensures { Reads result toks.old toks.new grammar.entry_note.read }
{
    sign(toks, b',')?;
    let n = wide(toks)?;
    Ok(Prof::Entry(n))
}

fn next_weight(toks: &mut Cursor) -> Result<u32, Stop>
    ensures { Reads result toks.old toks.new (comma_item grammar.weight).read }
{
    sign(toks, b',')?;
    weight(toks)
}

/// The weights behind those that were found.
fn more_weights(toks: &mut Cursor, mut found: Vec<u32>) -> Result<Seq<u32>, Stop>
    ensures { Reads result toks.old toks.new (more_of grammar.weight found.items).read }
{
    for _turn in 0..=toks.left() {
        if !toks.starts_sign(b',') {
            return Ok(Seq::of(found));
        }
        found.push(next_weight(toks)?)?;
    }
    Err(Stop::Syntax)
}

#[tactic(auto, unfolding(ir_grammar::specs::Notes::weights_note))]
fn weights_note(alloc: Global, toks: &mut Cursor) -> Result<Prof, Stop>
    ensures { Reads result toks.old toks.new grammar.weights_note.read }
{
    sign(toks, b',')?;
    let mut found = Vec::new(alloc);
    found.push(weight(toks)?)?;
    let list = more_weights(toks, found)?;
    Ok(Prof::Weights(list))
}

#[tactic(auto, unfolding(ir_grammar::specs::Notes::target_count))]
fn target_count(toks: &mut Cursor) -> Result<(u64, u64), Stop>
    ensures { Reads result toks.old toks.new grammar.target_count.read }
{
    let to = wide(toks)?;
    sign(toks, b',')?;
    let n = wide(toks)?;
    Ok((to, n))
}

fn next_target(toks: &mut Cursor) -> Result<(u64, u64), Stop>
    ensures { Reads result toks.old toks.new (comma_item grammar.target_count).read }
{
    sign(toks, b',')?;
    target_count(toks)
}

/// The targets behind those that were found.
fn more_targets(toks: &mut Cursor, mut found: Vec<(u64, u64)>) -> Result<Seq<(u64, u64)>, Stop>
    ensures { Reads result toks.old toks.new (more_of grammar.target_count found.items).read }
{
    for _turn in 0..=toks.left() {
        if !toks.starts_sign(b',') {
            return Ok(Seq::of(found));
        }
        found.push(next_target(toks)?)?;
    }
    Err(Stop::Syntax)
}

#[tactic(auto, unfolding(ir_grammar::specs::Notes::targets_note))]
fn targets_note(alloc: Global, toks: &mut Cursor) -> Result<Prof, Stop>
    ensures { Reads result toks.old toks.new grammar.targets_note.read }
{
    sign(toks, b',')?;
    this_type(toks, Ty::I32)?;
    this_literal(toks, Ty::I32, 0)?;
    sign(toks, b',')?;
    let total = wide(toks)?;
    let list = more_targets(toks, Vec::new(alloc))?;
    Ok(Prof::Targets { total, list })
}

fn note_behind(alloc: Global, toks: &mut Cursor, kind: NoteKind) -> Result<Prof, Stop>
    ensures { Reads result toks.old toks.new (grammar.note_behind kind).read }
{
    match kind {
        NoteKind::Entry => entry_note(toks),
        NoteKind::Weights => weights_note(alloc, toks),
        NoteKind::Targets => targets_note(alloc, toks),
    }
}

#[tactic(auto, unfolding(ir_grammar::specs::Notes::named_note))]
fn note_kind(toks: &mut Cursor) -> Result<NoteKind, Stop>
    ensures { Reads result toks.old toks.new grammar.named_note.read }
{
    match toks.next() {
        Some(Item::Str(text)) => note_kind_of(text).ok_or(Stop::Syntax),
        _ => Err(Stop::Syntax),
    }
}

/// A node of one of the three shapes, from its first mark on.
#[tactic(auto, unfolding(ir_grammar::specs::Notes::note))]
pub(crate) fn note(alloc: Global, toks: &mut Cursor) -> Result<Prof, Stop>
    ensures { Reads result toks.old toks.new grammar.note.read }
{
    mark(toks)?;
    sign(toks, b'{')?;
    mark(toks)?;
    let kind = note_kind(toks)?;
    let found = note_behind(alloc, toks, kind)?;
    sign(toks, b'}')?;
    Ok(found)
}

/// The number of a node, before its definition.
#[tactic(auto, unfolding(ir_grammar::specs::Notes::node_head))]
pub(crate) fn node_head(toks: &mut Cursor) -> Result<u64, Stop>
    ensures { Reads result toks.old toks.new grammar.node_head.read }
{
    mark(toks)?;
    let n = count(toks)?;
    sign(toks, b'=')?;
    Ok(n)
}

// ---- attachments

#[tactic(auto, unfolding(ir_grammar::specs::Notes::note_part))]
fn note_part(toks: &mut Cursor) -> Result<Option<u64>, Stop>
    ensures { Reads result toks.old toks.new grammar.note_part.read }
{
    sign(toks, b',')?;
    mark(toks)?;
    attachment(toks)
}

/// The note that stands after one more attachment: of several at one place the first is kept.
pub(crate) fn first_note(
    alloc: Global,
    nodes: &mut Nodes,
    kind: NoteKind,
    kept: Option<Boxed<Prof>>,
    node: Option<u64>,
) -> Result<Option<Boxed<Prof>>, Stop>
    ensures first { IfOk result (λ found. found ≡ grammar.first_note nodes.old kind kept node) }
    ensures memory { IfErr result (λ stop. stop ≡ stops.NoMemory) }
    ensures same { nodes.new ≡ nodes.old }
{
    match kept {
        Some(note) => Ok(Some(note)),
        None => match node {
            Some(n) => Ok(nodes.note(alloc, kind, n)?),
            None => Ok(None),
        },
    }
}

/// The attachments behind an instruction or terminator that may have a note of this kind.
#[tactic(auto, unfolding(ir_grammar::specs::Notes::noted))]
pub(crate) fn noted(
    alloc: Global,
    toks: &mut Cursor,
    nodes: &mut Nodes,
    kind: NoteKind,
) -> Result<Option<Boxed<Prof>>, Stop>
    ensures reads { Reads result toks.old toks.new (grammar.noted nodes.old kind).read }
    ensures same { nodes.new ≡ nodes.old }
{
    let mut kept = None;
    for _turn in 0..=toks.left() {
        if !toks.starts_sign(b',') {
            return Ok(kept);
        }
        let node = note_part(toks)?;
        kept = first_note(alloc, nodes, kind, kept, node)?;
    }
    Err(Stop::Syntax)
}

// ---- the head of a definition

/// An attribute or attachment of a definition, by its first token.
pub(crate) fn head_meaning(item: Item) -> Option<Past>
    ensures { result ≡ grammar.head_meaning (token_of item.entry) }
{
    match item {
        Item::Mark => Some(Past::Attachment),
        _ => function_meaning(item),
    }
}

fn head_behind(alloc: Global, toks: &mut Cursor, past: Past) -> Result<Option<u64>, Stop>
    ensures { Reads result toks.old toks.new (grammar.head_behind past).read }
{
    match past {
        Past::Attachment => attachment(toks),
        Past::Alone | Past::Number | Past::Text | Past::Parens | Past::Assigned => {
            past_behind(alloc, toks, past)?;
            Ok(None)
        }
    }
}

#[tactic(auto, unfolding(ir_grammar::specs::Notes::head_part))]
fn head_part(alloc: Global, toks: &mut Cursor) -> Result<Option<u64>, Stop>
    ensures { Reads result toks.old toks.new grammar.head_part.read }
{
    match toks.next() {
        Some(item) => match head_meaning(item) {
            Some(past) => head_behind(alloc, toks, past),
            None => Err(Stop::Syntax),
        },
        None => Err(Stop::Syntax),
    }
}

/// The attributes and attachments behind the parameters of a definition.
#[tactic(auto, unfolding(ir_grammar::specs::Notes::head_note))]
pub(crate) fn head_note(
    alloc: Global,
    toks: &mut Cursor,
    nodes: &mut Nodes,
) -> Result<Option<Boxed<Prof>>, Stop>
    ensures reads { Reads result toks.old toks.new (grammar.head_note nodes.old).read }
    ensures same { nodes.new ≡ nodes.old }
{
    let mut kept = None;
    for _turn in 0..=toks.left() {
        if !toks.starts_head() {
            return Ok(kept);
        }
        let node = head_part(alloc, toks)?;
        kept = first_note(alloc, nodes, NoteKind::Entry, kept, node)?;
    }
    Err(Stop::Syntax)
}
