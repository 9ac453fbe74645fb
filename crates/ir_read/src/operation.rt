//! Operators, comparisons, conversions, selects and phis.

ghost use Rattle.std.specs.Prelude.{◌≡◌, [], ◌∷◌};
ghost use Rattle.ir_grammar.specs.Instructions as grammar;
ghost use Rattle.ir_grammar.specs.Rules.{many_after};
ghost use Rattle.ir_grammar.specs.Words.{behind_comma, comma_item, comma_takes, is_sign};
ghost use Rattle.ir_read.specs.Reads.{Reads};

use crate::cursor::Cursor;
use crate::item::Item;
use crate::nodes::Nodes;
use crate::note::noted;
use crate::operand::{operand, typed_operand};
use crate::past::tail;
use crate::stop::Stop;
use crate::table::predicate_of;
use crate::types::{this_type, value_type};
use crate::word::{flag, flag_where, local, sign, word};
use ir_grammar::{NoteKind, Tail};
use ir_tree::{BinOp, ConvOp, Flags, Instr, Name, Operand, Pred, Seq, Ty};
use std::alloc::Global;

// ---- operators

fn may_wrap(op: BinOp) -> bool
    ensures { result ≡ grammar.may_wrap op }
{
    match op {
        BinOp::Add | BinOp::Sub | BinOp::Mul | BinOp::Shl => true,
        BinOp::UDiv | BinOp::SDiv | BinOp::URem | BinOp::SRem | BinOp::LShr | BinOp::AShr => false,
        BinOp::And | BinOp::Or | BinOp::Xor => false,
    }
}

fn may_be_exact(op: BinOp) -> bool
    ensures { result ≡ grammar.may_be_exact op }
{
    match op {
        BinOp::UDiv | BinOp::SDiv | BinOp::LShr | BinOp::AShr => true,
        BinOp::Add | BinOp::Sub | BinOp::Mul | BinOp::URem | BinOp::SRem | BinOp::Shl => false,
        BinOp::And | BinOp::Or | BinOp::Xor => false,
    }
}

fn is_or(op: BinOp) -> bool
    ensures { result ≡ grammar.is_or op }
{
    match op {
        BinOp::Or => true,
        BinOp::Add | BinOp::Sub | BinOp::Mul | BinOp::UDiv | BinOp::SDiv | BinOp::URem => false,
        BinOp::SRem | BinOp::Shl | BinOp::LShr | BinOp::AShr | BinOp::And | BinOp::Xor => false,
    }
}

#[tactic(auto, unfolding(ir_grammar::specs::Instructions::operator_flags))]
fn operator_flags(toks: &mut Cursor, op: BinOp) -> Result<Flags, Stop>
    ensures { Reads result toks.old toks.new (grammar.operator_flags op).read }
{
    let nuw = flag_where(toks, may_wrap(op), b"nuw")?;
    let nsw = flag_where(toks, may_wrap(op), b"nsw")?;
    let exact = flag_where(toks, may_be_exact(op), b"exact")?;
    flag_where(toks, is_or(op), b"disjoint")?;
    Ok(Flags { nuw, nsw, exact })
}

/// A type and two operands of it.
#[tactic(auto, unfolding(ir_grammar::specs::Instructions::two_operands))]
fn two_operands(alloc: Global, toks: &mut Cursor) -> Result<(Ty, Operand, Operand), Stop>
    ensures { Reads result toks.old toks.new grammar.two_operands.read }
{
    let ty = value_type(toks)?;
    let left = operand(alloc, toks, ty)?;
    sign(toks, b',')?;
    let right = operand(alloc, toks, ty)?;
    Ok((ty, left, right))
}

/// A binary operator and its operands.
#[tactic(auto, unfolding(ir_grammar::specs::Instructions::binary))]
pub(crate) fn binary(alloc: Global, toks: &mut Cursor, dest: Name, op: BinOp) -> Result<Instr, Stop>
    ensures { Reads result toks.old toks.new (grammar.binary dest op).read }
{
    let flags = operator_flags(toks, op)?;
    let (ty, left, right) = two_operands(alloc, toks)?;
    tail(alloc, toks, Tail::Plain)?;
    Ok(Instr::Binary {
        dest,
        op,
        flags,
        ty,
        left,
        right,
    })
}

#[tactic(auto, unfolding(ir_grammar::specs::Instructions::predicate))]
fn predicate(toks: &mut Cursor) -> Result<Pred, Stop>
    ensures { Reads result toks.old toks.new grammar.predicate.read }
{
    match toks.next() {
        Some(Item::Word(text)) => predicate_of(text).ok_or(Stop::Syntax),
        _ => Err(Stop::Syntax),
    }
}

/// A comparison.
#[tactic(auto, unfolding(ir_grammar::specs::Instructions::compare))]
pub(crate) fn compare(alloc: Global, toks: &mut Cursor, dest: Name) -> Result<Instr, Stop>
    ensures { Reads result toks.old toks.new (grammar.compare dest).read }
{
    flag(toks, b"samesign")?;
    let pred = predicate(toks)?;
    let (ty, left, right) = two_operands(alloc, toks)?;
    tail(alloc, toks, Tail::Plain)?;
    Ok(Instr::Compare {
        dest,
        pred,
        ty,
        left,
        right,
    })
}

// ---- conversions

fn is_trunc(op: ConvOp) -> bool
    ensures { result ≡ grammar.is_trunc op }
{
    match op {
        ConvOp::Trunc => true,
        ConvOp::ZExt | ConvOp::SExt | ConvOp::PtrToInt => false,
    }
}

fn is_zext(op: ConvOp) -> bool
    ensures { result ≡ grammar.is_zext op }
{
    match op {
        ConvOp::ZExt => true,
        ConvOp::Trunc | ConvOp::SExt | ConvOp::PtrToInt => false,
    }
}

#[tactic(auto, unfolding(ir_grammar::specs::Instructions::conversion_flags))]
fn conversion_flags(toks: &mut Cursor, op: ConvOp) -> Result<Flags, Stop>
    ensures { Reads result toks.old toks.new (grammar.conversion_flags op).read }
{
    let nuw = flag_where(toks, is_trunc(op), b"nuw")?;
    let nsw = flag_where(toks, is_trunc(op), b"nsw")?;
    flag_where(toks, is_zext(op), b"nneg")?;
    Ok(Flags {
        nuw,
        nsw,
        exact: false,
    })
}

#[tactic(auto, unfolding(ir_grammar::specs::Instructions::pointer_type))]
fn pointer_type(toks: &mut Cursor) -> Result<Ty, Stop>
    ensures { Reads result toks.old toks.new grammar.pointer_type.read }
{
    this_type(toks, Ty::Ptr)?;
    Ok(Ty::Ptr)
}

fn source_type(toks: &mut Cursor, op: ConvOp) -> Result<Ty, Stop>
    ensures { Reads result toks.old toks.new (grammar.source_type op).read }
{
    match op {
        ConvOp::Trunc | ConvOp::ZExt | ConvOp::SExt => value_type(toks),
        ConvOp::PtrToInt => pointer_type(toks),
    }
}

/// A conversion.
#[tactic(auto, unfolding(ir_grammar::specs::Instructions::convert))]
pub(crate) fn convert(
    alloc: Global,
    toks: &mut Cursor,
    dest: Name,
    op: ConvOp,
) -> Result<Instr, Stop>
    ensures { Reads result toks.old toks.new (grammar.convert dest op).read }
{
    let flags = conversion_flags(toks, op)?;
    let from = source_type(toks, op)?;
    let value = operand(alloc, toks, from)?;
    word(toks, b"to")?;
    let to = value_type(toks)?;
    tail(alloc, toks, Tail::Plain)?;
    Ok(Instr::Convert {
        dest,
        op,
        flags,
        from,
        value,
        to,
    })
}

#[tactic(auto, unfolding(ir_grammar::specs::Instructions::freeze))]
pub(crate) fn freeze(alloc: Global, toks: &mut Cursor, dest: Name) -> Result<Instr, Stop>
    ensures { Reads result toks.old toks.new (grammar.freeze dest).read }
{
    let (ty, value) = typed_operand(alloc, toks)?;
    tail(alloc, toks, Tail::Plain)?;
    Ok(Instr::Freeze { dest, ty, value })
}

/// A select.
#[tactic(auto, unfolding(ir_grammar::specs::Instructions::select))]
pub(crate) fn select(
    alloc: Global,
    toks: &mut Cursor,
    nodes: &mut Nodes,
    dest: Name,
) -> Result<Instr, Stop>
    ensures reads { Reads result toks.old toks.new (grammar.select nodes.old dest).read }
    ensures same { nodes.new ≡ nodes.old }
{
    this_type(toks, Ty::I1)?;
    let cond = operand(alloc, toks, Ty::I1)?;
    sign(toks, b',')?;
    let (ty, first) = typed_operand(alloc, toks)?;
    sign(toks, b',')?;
    this_type(toks, ty)?;
    let second = operand(alloc, toks, ty)?;
    let prof = noted(alloc, toks, nodes, NoteKind::Weights)?;
    Ok(Instr::Select {
        dest,
        cond,
        ty,
        yes: first,
        no: second,
        prof,
    })
}

// ---- phis

/// A value of a phi, and the block that it comes from.
#[tactic(auto, unfolding(ir_grammar::specs::Instructions::entry))]
fn entry(alloc: Global, toks: &mut Cursor, ty: Ty) -> Result<(Operand, Name), Stop>
    ensures { Reads result toks.old toks.new (grammar.entry ty).read }
{
    sign(toks, b'[')?;
    let value = operand(alloc, toks, ty)?;
    sign(toks, b',')?;
    let from = local(alloc, toks)?;
    sign(toks, b']')?;
    Ok((value, from))
}

fn next_entry(alloc: Global, toks: &mut Cursor, ty: Ty) -> Result<(Operand, Name), Stop>
    ensures { Reads result toks.old toks.new (comma_item (grammar.entry ty)).read }
{
    sign(toks, b',')?;
    entry(alloc, toks, ty)
}

/// The entries behind those that were found.
fn more_entries(
    alloc: Global,
    toks: &mut Cursor,
    ty: Ty,
    mut found: Vec<(Operand, Name)>,
) -> Result<Seq<(Operand, Name)>, Stop>
    ensures { Reads result toks.old toks.new (many_after found.items (behind_comma (is_sign 91)) (comma_item (grammar.entry ty)) (comma_takes (grammar.entry ty))).read }
{
    for _turn in 0..=toks.left() {
        if !toks.starts_comma_sign(b'[') {
            return Ok(Seq::of(found));
        }
        found.push(next_entry(alloc, toks, ty)?)?;
    }
    Err(Stop::Syntax)
}

/// One or more entries of a phi.
#[tactic(auto, unfolding(ir_grammar::specs::Instructions::entries))]
fn entries(alloc: Global, toks: &mut Cursor, ty: Ty) -> Result<Seq<(Operand, Name)>, Stop>
    ensures { Reads result toks.old toks.new (grammar.entries ty).read }
{
    let mut found = Vec::new(alloc);
    found.push(entry(alloc, toks, ty)?)?;
    more_entries(alloc, toks, ty, found)
}

/// A phi: its value is that of the entry for the block that was left.
#[tactic(auto, unfolding(ir_grammar::specs::Instructions::phi))]
pub(crate) fn phi(alloc: Global, toks: &mut Cursor, dest: Name) -> Result<Instr, Stop>
    ensures { Reads result toks.old toks.new (grammar.phi dest).read }
{
    let ty = value_type(toks)?;
    let entries = entries(alloc, toks, ty)?;
    tail(alloc, toks, Tail::Plain)?;
    Ok(Instr::Phi { dest, ty, entries })
}
