// The nodes of a module's profile notes, each note once.
ghost use Rattle.std.specs.Prelude.{◌≡◌, IfOk, [], fold};
ghost use Rattle.std.specs.Option.{option_copied};
ghost use Rattle.canonical_text.specs.Notes as spec;

use crate::note::note_text;
use ir_tree::{Block, Function, Index, Instr, Module, Prof, Term};
use pgo_base::NoMemory;
use sqlite_items::Boxed;
use std::alloc::Global;
use std::marker::Model;

/// The nodes so far, numbered by their places. Contracts see the list of them.
#[derive(Drop)]
pub(crate) struct Nodes {
    alloc: Global,
    index: Index,
    notes: Vec<Prof>,
}

impl Model for Nodes {
    ghost use Rattle.std.specs.Prelude.{List, map};
    ghost use Rattle.std.specs.Coded.{coded_list};
    ghost use Rattle.ir_tree.specs.contracts.types.Prof as row;
    ghost use Rattle.ir_tree.specs.declared.types.Prof.{Prof};
    ghost use Rattle.ir_tree.specs.Names.{Indexes};
    ghost use Rattle.canonical_text.specs.Notes.{note_text};

    ghost Value = { List Prof };

    ghost coded = { coded_list row.the_row.coded };

    ghost view = { λ n. n.notes.items };

    ghost invariant = { λ n. Indexes n.index (map note_text n.notes.items) };
}

fn note_of(prof: &Option<Boxed<Prof>>) -> Option<&Prof>
    ensures { option_copied result ≡ prof.now }
{
    match prof {
        None => None,
        Some(note) => Some(note.get()),
    }
}

fn instr_note(instr: &Instr) -> Option<&Prof>
    ensures { option_copied result ≡ spec.instr_note instr.now }
{
    match instr {
        Instr::Select { prof, .. } => note_of(prof),
        Instr::Call { prof, .. } => note_of(prof),
        Instr::Binary { .. }
        | Instr::Compare { .. }
        | Instr::Convert { .. }
        | Instr::Freeze { .. }
        | Instr::Phi { .. }
        | Instr::Alloca { .. }
        | Instr::Load { .. }
        | Instr::Store { .. }
        | Instr::Gep { .. }
        | Instr::Count { .. } => None,
    }
}

fn term_note(term: &Term) -> Option<&Prof>
    ensures { option_copied result ≡ spec.term_note term.now }
{
    match term {
        Term::CondBr { prof, .. } => note_of(prof),
        Term::Switch { prof, .. } => note_of(prof),
        Term::Br { .. } | Term::Ret { .. } | Term::Unreachable => None,
    }
}

impl Nodes {
    fn new(alloc: Global) -> Nodes
        ensures { result ≡ [] }
    {
        Nodes {
            alloc,
            index: Index::new(alloc),
            notes: Vec::new(alloc),
        }
    }

    /// The nodes of a module.
    #[tactic(auto, unfolding(canonical_text::specs::Notes::nodes_of))]
    pub(crate) fn of(alloc: Global, module: &Module) -> Result<Nodes, NoMemory>
        ensures { IfOk result (λ n. n ≡ spec.nodes_of «module».now) }
    {
        Nodes::new(alloc).with_functions(module.functions.as_slice())
    }

    /// The nodes in order.
    pub(crate) fn notes(&self) -> &[Prof]
        ensures { result.now ≡ self.now }
    {
        self.notes.as_slice()
    }

    /// The number of a note's node.
    #[tactic(auto, unfolding(canonical_text::specs::Notes::number_of))]
    pub(crate) fn number(&self, note: &Prof) -> Result<usize, NoMemory>
        ensures { IfOk result (λ n. n ≡ spec.number_of self.now note.now) }
    {
        let text = note_text(self.alloc, note)?;
        Ok(self.index.find(text.as_slice()).unwrap_or(self.notes.len()))
    }

    #[tactic(auto, unfolding(canonical_text::specs::Notes::with_note))]
    fn with_note(self, note: &Prof) -> Result<Nodes, NoMemory>
        ensures { IfOk result (λ n. n ≡ spec.with_note self note.now) }
    {
        let text = note_text(self.alloc, note)?;
        if self.index.find(text.as_slice()).is_some() {
            return Ok(self);
        }
        let Nodes {
            alloc,
            mut index,
            mut notes,
        } = self;
        index.add(alloc, text.as_slice(), notes.len())?;
        notes.push(note.copy(alloc)?)?;
        Ok(Nodes {
            alloc,
            index,
            notes,
        })
    }

    #[tactic(auto, unfolding(canonical_text::specs::Notes::with_noted))]
    fn with_noted(self, note: Option<&Prof>) -> Result<Nodes, NoMemory>
        ensures { IfOk result (λ n. n ≡ spec.with_noted self (option_copied note.entry)) }
    {
        match note {
            None => Ok(self),
            Some(note) => self.with_note(note),
        }
    }

    fn with_instrs(self, instrs: &[Instr]) -> Result<Nodes, NoMemory>
        ensures { IfOk result (λ n. n ≡ fold spec.with_instr self instrs.now) }
    {
        let mut nodes = self;
        for instr in instrs {
            nodes = nodes.with_noted(instr_note(instr))?;
        }
        Ok(nodes)
    }

    #[tactic(auto, unfolding(canonical_text::specs::Notes::with_block))]
    fn with_block(self, block: &Block) -> Result<Nodes, NoMemory>
        ensures { IfOk result (λ n. n ≡ spec.with_block self block.now) }
    {
        let nodes = self.with_instrs(block.instrs.as_slice())?;
        nodes.with_noted(term_note(&block.term))
    }

    fn with_blocks(self, blocks: &[Block]) -> Result<Nodes, NoMemory>
        ensures { IfOk result (λ n. n ≡ fold spec.with_block self blocks.now) }
    {
        let mut nodes = self;
        for block in blocks {
            nodes = nodes.with_block(block)?;
        }
        Ok(nodes)
    }

    #[tactic(auto, using(crate::proofs::Pushed::bare_body, crate::proofs::Pushed::some_body), unfolding(canonical_text::specs::Notes::with_function))]
    fn with_function(self, function: &Function) -> Result<Nodes, NoMemory>
        ensures { IfOk result (λ n. n ≡ spec.with_function self function.now) }
    {
        let blocks = function.blocks.as_slice();
        if blocks.is_empty() {
            return Ok(self);
        }
        let nodes = self.with_noted(note_of(&function.prof))?;
        nodes.with_blocks(blocks)
    }

    fn with_functions(self, functions: &[Function]) -> Result<Nodes, NoMemory>
        ensures { IfOk result (λ n. n ≡ fold spec.with_function self functions.now) }
    {
        let mut nodes = self;
        for function in functions {
            nodes = nodes.with_function(function)?;
        }
        Ok(nodes)
    }
}
