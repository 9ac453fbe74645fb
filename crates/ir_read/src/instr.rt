//! Instructions other than terminators, and the choice among them.

ghost use Rattle.std.specs.Prelude.{◌≡◌, ◌||◌};
ghost use Rattle.ir_grammar.specs.Instructions as grammar;
ghost use Rattle.ir_read.specs.Items.{token_of};
ghost use Rattle.ir_read.specs.Reads.{Reads};

use crate::call::call;
use crate::cursor::Cursor;
use crate::item::Item;
use crate::memory::{alloca, counter_add, gep, load, store};
use crate::nodes::Nodes;
use crate::operand::{operand, typed_operand};
use crate::operation::{binary, compare, convert, freeze, phi, select};
use crate::stop::Stop;
use crate::table::{effect_of, marked_of, opcode_of};
use crate::word::{sign, word};
use ir_grammar::{Effect, Marks, Opcode};
use ir_tree::{Instr, Name, Seq};
use std::alloc::Global;

/// `tail` or `notail` was read: a call with the name of its result.
#[tactic(auto, unfolding(ir_grammar::specs::Instructions::tail_call))]
fn tail_call(
    alloc: Global,
    toks: &mut Cursor,
    nodes: &mut Nodes,
    dest: Option<Name>,
) -> Result<Instr, Stop>
    ensures reads { Reads result toks.old toks.new (grammar.tail_call nodes.old dest).read }
    ensures same { nodes.new ≡ nodes.old }
{
    word(toks, b"call")?;
    call(alloc, toks, nodes, dest)
}

/// What stands behind `%d =` and the first word.
fn operation(
    alloc: Global,
    toks: &mut Cursor,
    nodes: &mut Nodes,
    dest: Name,
    op: Opcode,
) -> Result<Instr, Stop>
    ensures reads { Reads result toks.old toks.new (grammar.operation nodes.old dest op).read }
    ensures same { nodes.new ≡ nodes.old }
{
    match op {
        Opcode::Binary(op) => binary(alloc, toks, dest, op),
        Opcode::Compare => compare(alloc, toks, dest),
        Opcode::Convert(op) => convert(alloc, toks, dest, op),
        Opcode::Freeze => freeze(alloc, toks, dest),
        Opcode::Select => select(alloc, toks, nodes, dest),
        Opcode::Phi => phi(alloc, toks, dest),
        Opcode::Alloca => alloca(alloc, toks, dest),
        Opcode::Load => load(alloc, toks, dest),
        Opcode::Gep => gep(alloc, toks, dest),
        Opcode::Call => call(alloc, toks, nodes, Some(dest)),
        Opcode::Tail => tail_call(alloc, toks, nodes, Some(dest)),
    }
}

#[tactic(auto, unfolding(ir_grammar::specs::Instructions::opcode))]
fn opcode(toks: &mut Cursor) -> Result<Opcode, Stop>
    ensures { Reads result toks.old toks.new grammar.opcode.read }
{
    match toks.next() {
        Some(Item::Word(text)) => opcode_of(text).ok_or(Stop::Syntax),
        _ => Err(Stop::Syntax),
    }
}

/// An instruction, behind the name of its result.
#[tactic(auto, unfolding(ir_grammar::specs::Instructions::assigned))]
fn assigned(alloc: Global, toks: &mut Cursor, nodes: &mut Nodes, dest: Name) -> Result<Instr, Stop>
    ensures reads { Reads result toks.old toks.new (grammar.assigned nodes.old dest).read }
    ensures same { nodes.new ≡ nodes.old }
{
    sign(toks, b'=')?;
    let op = opcode(toks)?;
    operation(alloc, toks, nodes, dest, op)
}

/// What stands behind the first word of an instruction without the name of a result.
fn effect(alloc: Global, toks: &mut Cursor, nodes: &mut Nodes, what: Effect) -> Result<Instr, Stop>
    ensures reads { Reads result toks.old toks.new (grammar.effect nodes.old what).read }
    ensures same { nodes.new ≡ nodes.old }
{
    match what {
        Effect::Store => store(alloc, toks),
        Effect::Call => call(alloc, toks, nodes, None),
        Effect::Tail => tail_call(alloc, toks, nodes, None),
        Effect::Count => counter_add(alloc, toks),
    }
}

/// An instruction.
#[tactic(auto, unfolding(ir_grammar::specs::Instructions::instr))]
fn instr(alloc: Global, toks: &mut Cursor, nodes: &mut Nodes) -> Result<Instr, Stop>
    ensures reads { Reads result toks.old toks.new (grammar.instr nodes.old).read }
    ensures same { nodes.new ≡ nodes.old }
{
    match toks.next() {
        Some(Item::Local(name)) => {
            let dest = Name::of(alloc, name)?;
            assigned(alloc, toks, nodes, dest)
        }
        Some(Item::Word(text)) => match effect_of(text) {
            Some(what) => effect(alloc, toks, nodes, what),
            None => Err(Stop::Syntax),
        },
        _ => Err(Stop::Syntax),
    }
}

/// The instructions of a block before its terminator.
#[tactic(auto, unfolding(ir_grammar::specs::Instructions::instrs))]
pub(crate) fn instrs(
    alloc: Global,
    toks: &mut Cursor,
    nodes: &mut Nodes,
) -> Result<Seq<Instr>, Stop>
    ensures reads { Reads result toks.old toks.new (grammar.instrs nodes.old).read }
    ensures same { nodes.new ≡ nodes.old }
{
    let mut found = Vec::new(alloc);
    for _turn in 0..=toks.left() {
        if !toks.starts_instr() {
            return Ok(Seq::of(found));
        }
        found.push(instr(alloc, toks, nodes)?)?;
    }
    Err(Stop::Syntax)
}

// ---- words of which one is marked

/// One of several words, and whether it is the marked one.
pub(crate) fn mark_meaning(which: Marks, item: Item) -> Option<bool>
    ensures { result ≡ grammar.mark_meaning which (token_of item.entry) }
{
    match item {
        Item::Word(text) => marked_of(which, text),
        _ => None,
    }
}

fn or(left: bool, right: bool) -> bool
    ensures { result ≡ left || right }
{
    left || right
}

#[tactic(auto, unfolding(ir_grammar::specs::Instructions::one_marked))]
fn one_marked(toks: &mut Cursor, which: Marks) -> Result<bool, Stop>
    ensures { Reads result toks.old toks.new (grammar.one_marked which).read }
{
    match toks.next() {
        Some(item) => mark_meaning(which, item).ok_or(Stop::Syntax),
        None => Err(Stop::Syntax),
    }
}

/// Any number of these words, and whether the marked one is among them.
#[tactic(auto, unfolding(ir_grammar::specs::Instructions::marked))]
pub(crate) fn marked(toks: &mut Cursor, which: Marks) -> Result<bool, Stop>
    ensures { Reads result toks.old toks.new (grammar.marked which).read }
{
    let mut any = false;
    for _turn in 0..=toks.left() {
        if !toks.starts_marked(which) {
            return Ok(any);
        }
        let this = one_marked(toks, which)?;
        any = or(any, this);
    }
    Err(Stop::Syntax)
}
