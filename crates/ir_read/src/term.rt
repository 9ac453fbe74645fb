//! Terminators.

ghost use Rattle.std.specs.Prelude.{◌≡◌};
ghost use Rattle.ir_grammar.specs.Terminators as grammar;
ghost use Rattle.ir_read.specs.Reads.{Reads};

use crate::cursor::Cursor;
use crate::item::Item;
use crate::nodes::Nodes;
use crate::note::noted;
use crate::operand::{literal, operand, typed_operand};
use crate::past::tail;
use crate::stop::Stop;
use crate::table::ending_of;
use crate::types::{return_type, this_type};
use crate::word::{local, sign, word};
use ir_grammar::{Ending, NoteKind, Tail};
use ir_tree::{Name, Ret, Seq, Term, Ty};
use std::alloc::Global;

/// The name of a successor, behind `label`.
#[tactic(auto, unfolding(ir_grammar::specs::Terminators::target))]
fn target(alloc: Global, toks: &mut Cursor) -> Result<Name, Stop>
    ensures { Reads result toks.old toks.new grammar.target.read }
{
    word(toks, b"label")?;
    local(alloc, toks)
}

#[tactic(auto, unfolding(ir_grammar::specs::Terminators::jump))]
fn jump(alloc: Global, toks: &mut Cursor) -> Result<Term, Stop>
    ensures { Reads result toks.old toks.new grammar.jump.read }
{
    let to = local(alloc, toks)?;
    tail(alloc, toks, Tail::Plain)?;
    Ok(Term::Br { to })
}

#[tactic(auto, unfolding(ir_grammar::specs::Terminators::branch))]
fn branch(alloc: Global, toks: &mut Cursor, nodes: &mut Nodes) -> Result<Term, Stop>
    ensures reads { Reads result toks.old toks.new (grammar.branch nodes.old).read }
    ensures same { nodes.new ≡ nodes.old }
{
    let cond = operand(alloc, toks, Ty::I1)?;
    sign(toks, b',')?;
    let first = target(alloc, toks)?;
    sign(toks, b',')?;
    let second = target(alloc, toks)?;
    let prof = noted(alloc, toks, nodes, NoteKind::Weights)?;
    Ok(Term::CondBr {
        cond,
        yes: first,
        no: second,
        prof,
    })
}

#[tactic(auto, unfolding(ir_grammar::specs::Terminators::br))]
fn br(alloc: Global, toks: &mut Cursor, nodes: &mut Nodes) -> Result<Term, Stop>
    ensures reads { Reads result toks.old toks.new (grammar.br nodes.old).read }
    ensures same { nodes.new ≡ nodes.old }
{
    match toks.next() {
        Some(Item::Word(text)) => {
            if text == b"label".as_slice() {
                jump(alloc, toks)
            } else if text == b"i1".as_slice() {
                branch(alloc, toks, nodes)
            } else {
                Err(Stop::Syntax)
            }
        }
        _ => Err(Stop::Syntax),
    }
}

/// One case of a switch.
#[tactic(auto, unfolding(ir_grammar::specs::Terminators::case))]
fn case(alloc: Global, toks: &mut Cursor, ty: Ty) -> Result<(u64, Name), Stop>
    ensures { Reads result toks.old toks.new (grammar.case ty).read }
{
    this_type(toks, ty)?;
    let n = literal(toks, ty)?;
    sign(toks, b',')?;
    let to = target(alloc, toks)?;
    Ok((n, to))
}

#[tactic(auto, unfolding(ir_grammar::specs::Terminators::cases))]
fn cases(alloc: Global, toks: &mut Cursor, ty: Ty) -> Result<Seq<(u64, Name)>, Stop>
    ensures { Reads result toks.old toks.new (grammar.cases ty).read }
{
    let mut found = Vec::new(alloc);
    for _turn in 0..=toks.left() {
        if !toks.starts_type(ty) {
            return Ok(Seq::of(found));
        }
        found.push(case(alloc, toks, ty)?)?;
    }
    Err(Stop::Syntax)
}

#[tactic(auto, unfolding(ir_grammar::specs::Terminators::switch))]
fn switch(alloc: Global, toks: &mut Cursor, nodes: &mut Nodes) -> Result<Term, Stop>
    ensures reads { Reads result toks.old toks.new (grammar.switch nodes.old).read }
    ensures same { nodes.new ≡ nodes.old }
{
    let (ty, value) = typed_operand(alloc, toks)?;
    sign(toks, b',')?;
    let default = target(alloc, toks)?;
    sign(toks, b'[')?;
    let cases = cases(alloc, toks, ty)?;
    sign(toks, b']')?;
    let prof = noted(alloc, toks, nodes, NoteKind::Weights)?;
    Ok(Term::Switch {
        ty,
        value,
        default,
        cases,
        prof,
    })
}

#[tactic(auto, unfolding(ir_grammar::specs::Terminators::no_value))]
fn no_value(alloc: Global, toks: &mut Cursor) -> Result<Term, Stop>
    ensures { Reads result toks.old toks.new grammar.no_value.read }
{
    tail(alloc, toks, Tail::Plain)?;
    Ok(Term::Ret { value: None })
}

#[tactic(auto, unfolding(ir_grammar::specs::Terminators::one_value))]
fn one_value(alloc: Global, toks: &mut Cursor, ty: Ty) -> Result<Term, Stop>
    ensures { Reads result toks.old toks.new (grammar.one_value ty).read }
{
    let value = operand(alloc, toks, ty)?;
    tail(alloc, toks, Tail::Plain)?;
    Ok(Term::Ret {
        value: Some((ty, value)),
    })
}

#[tactic(auto, unfolding(ir_grammar::specs::Terminators::ret))]
fn ret(alloc: Global, toks: &mut Cursor) -> Result<Term, Stop>
    ensures { Reads result toks.old toks.new grammar.ret.read }
{
    match return_type(toks)? {
        Ret::Void => no_value(alloc, toks),
        Ret::Value(ty) => one_value(alloc, toks, ty),
    }
}

#[tactic(auto, unfolding(ir_grammar::specs::Terminators::unreachable))]
fn unreachable(alloc: Global, toks: &mut Cursor) -> Result<Term, Stop>
    ensures { Reads result toks.old toks.new grammar.unreachable.read }
{
    tail(alloc, toks, Tail::Plain)?;
    Ok(Term::Unreachable)
}

fn ending(alloc: Global, toks: &mut Cursor, nodes: &mut Nodes, what: Ending) -> Result<Term, Stop>
    ensures reads { Reads result toks.old toks.new (grammar.ending nodes.old what).read }
    ensures same { nodes.new ≡ nodes.old }
{
    match what {
        Ending::Br => br(alloc, toks, nodes),
        Ending::Switch => switch(alloc, toks, nodes),
        Ending::Ret => ret(alloc, toks),
        Ending::Unreachable => unreachable(alloc, toks),
    }
}

/// The terminator of a block.
#[tactic(auto, unfolding(ir_grammar::specs::Terminators::terminator))]
pub(crate) fn terminator(alloc: Global, toks: &mut Cursor, nodes: &mut Nodes) -> Result<Term, Stop>
    ensures reads { Reads result toks.old toks.new (grammar.terminator nodes.old).read }
    ensures same { nodes.new ≡ nodes.old }
{
    match toks.next() {
        Some(Item::Word(text)) => match ending_of(text) {
            Some(what) => ending(alloc, toks, nodes, what),
            None => Err(Stop::Syntax),
        },
        _ => Err(Stop::Syntax),
    }
}
