// The phis of blocks, and what they do on the edges to their blocks.
ghost use Rattle.std.specs.Prelude.{◌≡◌, ◌++◌, map, IfOk, OnOk};
ghost use Rattle.std.specs.Option.{option_copied, option_map};
ghost use Rattle.ir_tree.specs.Operands.{listed, result_of};
ghost use Rattle.ir_model.specs.Step.{typed};
ghost use Rattle.ir_tree.specs.Names.{Indexes};
ghost use Rattle.ir_tree.specs.Phis.{entries_of, leading_phis, value_for};
ghost use Rattle.ir_code.specs.Names.{number_in};
ghost use Rattle.ir_code.specs.Found.{phi_input_in, move_in, moves_in, edge_in, edges_in};
ghost use Rattle.ir_code.specs.Resolved.{entry_labels, block_phis, value_on, target_of};

use crate::SCANNED_MOST;
use crate::code::{EdgeCode, Input, Move, Target};
use crate::names::Numbers;
use crate::operands::input;
use crate::symbols::Symbols;
use ir_tree::{Block, Index, Instr, Name, Operand, Ret, Seq, Term, entry_for, phi_count};
use pgo_base::NoMemory;
use std::alloc::Global;
use std::marker::Model;

/// A phi, in which a label's first entry is found without a scan of many. Contracts see it as the
/// instruction.
#[derive(Drop)]
pub struct IndexedPhi<'a> {
    phi: &'a Instr,
    // the labels of the entries, where there are more than are looked through
    labels: Index,
}

impl<'a> Model for IndexedPhi<'a> {
    ghost use Rattle.std.specs.Prelude.{◌<◌, length};
    ghost use Rattle.ir_tree.specs.Names.{Indexes};
    ghost use Rattle.ir_tree.specs.Phis.{entries_of};
    ghost use Rattle.ir_tree.specs.declared.types.Instr.{Instr};
    ghost use Rattle.ir_tree.specs.contracts.types.Instr.{the_row};
    ghost use Rattle.ir_code.specs.Resolved.{entry_labels};
    ghost use Rattle.ir_code.specs.declared.TheConstants.{SCANNED_MOST};

    ghost Value = { Instr };

    ghost coded = { the_row.coded };

    ghost view = { λ p. p.phi.now };

    ghost invariant = { λ p. SCANNED_MOST < length (entry_labels (entries_of p.phi.now)) → Indexes p.labels (entry_labels (entries_of p.phi.now)) };
}

fn index_labels(alloc: Global, entries: &[(Operand, Name)]) -> Result<Index, NoMemory>
    ensures { IfOk result (λ index. Indexes index (map (λ e. e.1) entries.now)) }
{
    let mut index = Index::new(alloc);
    for (i, entry) in entries.iter().enumerate() {
        index.add(alloc, entry.1.bytes(), i)?;
    }
    Ok(index)
}

impl<'a> IndexedPhi<'a> {
    /// The phi with its index.
    pub fn of(alloc: Global, phi: &'a Instr) -> Result<IndexedPhi<'a>, NoMemory>
        ensures { IfOk result (λ p. p ≡ phi.now) }
    {
        let labels = match phi.entries() {
            Some(entries) if SCANNED_MOST < entries.len() => index_labels(alloc, entries)?,
            Some(_) | None => Index::new(alloc),
        };
        Ok(IndexedPhi { phi, labels })
    }

    // The value of the first entry for a label.
    fn value(&self, label: &Name) -> Option<&Operand>
        ensures { option_copied result ≡ value_on label.now (entries_of self.now) }
    {
        match self.phi.entries() {
            Some(entries) if SCANNED_MOST < entries.len() => {
                find_value(&self.labels, entries, label)
            }
            Some(entries) => scan_value(entries, label),
            None => None,
        }
    }
}

// The value of the first entry for a label, by the index of the entries' labels.
fn find_value<'a>(
    labels: &Index,
    entries: &'a [(Operand, Name)],
    label: &Name,
) -> Option<&'a Operand>
    requires { Indexes labels.now (map (λ e. e.1) entries.now) }
    ensures { option_copied result ≡ value_for label.now entries.now }
{
    let place = labels.find(label.bytes()).unwrap_or(entries.len());
    match entries.get(place) {
        Some(entry) => Some(&entry.0),
        None => None,
    }
}

// The value of the first entry for a label, one entry after another.
fn scan_value<'a>(entries: &'a [(Operand, Name)], label: &Name) -> Option<&'a Operand>
    ensures { option_copied result ≡ value_for label.now entries.now }
{
    match entry_for(label, entries) {
        Some(entry) => Some(&entry.0),
        None => None,
    }
}

/// The phis in front of a list of instructions.
fn phis_in(alloc: Global, instrs: &[Instr]) -> Result<Vec<IndexedPhi>, NoMemory>
    ensures { IfOk result (λ phis. phis.items ≡ leading_phis instrs.now) }
{
    let front = &instrs[..phi_count(instrs)];
    let mut phis = Vec::with_capacity(alloc, front.len())?;
    for instr in front {
        phis.push(IndexedPhi::of(alloc, instr)?)?;
    }
    Ok(phis)
}

/// The phis of each block.
pub fn phis_of_blocks(alloc: Global, blocks: &[Block]) -> Result<Vec<Seq<IndexedPhi>>, NoMemory>
    ensures { IfOk result (λ phis. phis.items ≡ block_phis blocks.now) }
{
    let mut all = Vec::with_capacity(alloc, blocks.len())?;
    for block in blocks {
        let phis = phis_in(alloc, block.instrs.as_slice())?;
        all.push(Seq::of(phis))?;
    }
    Ok(all)
}

fn input_on(
    symbols: &Symbols,
    registers: &Numbers,
    phi: &IndexedPhi,
    label: &Name,
) -> Result<Input, NoMemory>
    ensures { IfOk result (λ i. i ≡ phi_input_in symbols.now registers.now label.now (entries_of phi.now)) }
{
    match phi.value(label) {
        Some(value) => input(symbols, registers, value),
        None => Ok(Input::Number(0)),
    }
}

/// The register that a phi assigns, with its type.
fn target_of_phi(registers: &Numbers, phi: &Instr) -> Option<Target>
    ensures { (symbol counters sites : _) → result ≡ option_map (target_of symbol counters sites (number_in registers.now)) (typed (result_of phi.now)) }
{
    match phi.result() {
        Some((dest, Ret::Value(ty))) => Some(Target {
            register: registers.number(dest),
            ty,
        }),
        Some((_, Ret::Void)) | None => None,
    }
}

/// Puts what a phi does on an edge from the block of this label behind the moves.
fn push_move(
    symbols: &Symbols,
    registers: &Numbers,
    phi: &IndexedPhi,
    label: &Name,
    moves: &mut Vec<Move>,
) -> Result<(), NoMemory>
    ensures { OnOk result (moves.new.items ≡ moves.old.items ++ listed (move_in symbols.now registers.now label.now phi.now)) }
{
    match target_of_phi(registers, phi.phi) {
        Some(into) => {
            let source = input_on(symbols, registers, phi, label)?;
            moves.push(Move { into, source })?;
            Ok(())
        }
        None => Ok(()),
    }
}

/// What phis do on an edge from the block of this label.
fn moves(
    alloc: Global,
    symbols: &Symbols,
    registers: &Numbers,
    phis: &[IndexedPhi],
    label: &Name,
) -> Result<Vec<Move>, NoMemory>
    ensures { IfOk result (λ moves. moves.items ≡ moves_in symbols.now registers.now label.now phis.now) }
{
    let mut moves = Vec::with_capacity(alloc, phis.len())?;
    for phi in phis {
        push_move(symbols, registers, phi, label, &mut moves)?;
    }
    Ok(moves)
}

fn edge(
    alloc: Global,
    symbols: &Symbols,
    registers: &Numbers,
    labels: &Numbers,
    phis: &[Seq<IndexedPhi>],
    label: &Name,
    to: &Name,
) -> Result<EdgeCode, NoMemory>
    ensures { IfOk result (λ e. e ≡ edge_in symbols.now registers.now labels.now phis.now label.now to.now) }
{
    let block = labels.number(to);
    let moves = match phis.get(block) {
        Some(phis) => moves(alloc, symbols, registers, phis.as_slice(), label)?,
        None => Vec::new(alloc),
    };
    Ok(EdgeCode {
        block,
        moves: Seq::of(moves),
    })
}

/// The edges out of the block of this label, one for each successor.
pub fn edges(
    alloc: Global,
    symbols: &Symbols,
    registers: &Numbers,
    labels: &Numbers,
    phis: &[Seq<IndexedPhi>],
    label: &Name,
    term: &Term,
) -> Result<Vec<EdgeCode>, NoMemory>
    ensures { IfOk result (λ edges. edges.items ≡ edges_in symbols.now registers.now labels.now phis.now label.now term.now) }
{
    let mut edges = Vec::new(alloc);
    for position in 0..term.successor_count() {
        match term.successor(position) {
            Some(to) => edges.push(edge(alloc, symbols, registers, labels, phis, label, to)?)?,
            None => {}
        }
    }
    Ok(edges)
}
