//! The nodes that a text defines.

ghost use Rattle.std.specs.Prelude.{◌≡◌, [], ◌∷◌, ℕ, Some, cond, nat_eq, IfOk, OnOk, IfSome, IfNone, ⊤};
ghost use Rattle.std.specs.Option.{option_copied, option_map};
ghost use Rattle.ir_lex.specs.Cut.{tokens_of};
ghost use Rattle.ir_grammar.specs.Notes as grammar;
ghost use Rattle.ir_read.specs.Table.{Holds, listed_node, notes_at, joined, known_at, note_known};

use crate::cursor::Cursor;
use crate::note::{node_head, note};
use crate::past::bracket_of;
use crate::stop::Stop;
use indexmap::IndexMap;
use ir_grammar::{Bracket, NoteKind};
use ir_tree::Prof;
use pgo_base::NoMemory;
use sqlite_items::Boxed;
use std::alloc::Global;
use std::marker::Model;

/// The note of each node that is defined once; None of one that is defined again or has no shape of a note.
#[derive(Drop)]
struct Table {
    notes: IndexMap<u64, Option<Prof>>,
}

impl Table {
    /// Adds a definition.
    fn add(&mut self, number: u64, note: Option<Prof>) -> Result<(), NoMemory>
        ensures { OnOk result ((n : ℕ) → known_at self.new n ≡ joined (known_at self.old n) (notes_at n ((number, note) ∷ []))) }
    {
        if self.notes.get(&number).is_some() {
            self.notes.insert(number, None)?;
        } else {
            self.notes.insert(number, note)?;
        }
        Ok(())
    }

    /// Adds the node whose definition begins at the cursor, outside of all brackets, if one does.
    fn add_at(&mut self, alloc: Global, toks: &Cursor, depth: usize) -> Result<(), NoMemory>
        ensures { OnOk result ((n : ℕ) → known_at self.new n ≡ joined (known_at self.old n) (notes_at n (cond (nat_eq depth 0) (grammar.node_at toks.now.tokens) []))) }
    {
        if depth == 0 {
            if let Some((number, note)) = node_at(alloc, toks)? {
                self.add(number, note)?;
            }
        }
        Ok(())
    }

    /// The note of a node that is defined once.
    fn get(&self, number: u64) -> Option<&Prof>
        ensures { option_copied result ≡ note_known (known_at self.now number) }
    {
        match self.notes.get(&number) {
            Some(Some(note)) => Some(note),
            _ => None,
        }
    }
}

/// The node whose definition begins at the cursor, if one does.
fn node_at(alloc: Global, toks: &Cursor) -> Result<Option<(u64, Option<Prof>)>, NoMemory>
    ensures { IfOk result (λ node. listed_node node ≡ grammar.node_at toks.now.tokens) }
{
    if !toks.starts_mark() {
        return Ok(None);
    }
    let mut ahead = toks.fork();
    match node_head(&mut ahead) {
        Ok(number) => match note(alloc, &mut ahead) {
            Ok(note) => Ok(Some((number, Some(note)))),
            Err(Stop::Syntax) => Ok(Some((number, None))),
            Err(Stop::NoMemory) => Err(NoMemory),
        },
        Err(Stop::Syntax) => Ok(None),
        Err(Stop::NoMemory) => Err(NoMemory),
    }
}

/// How many brackets are open behind a token.
fn depth_after(bracket: Bracket, depth: usize) -> Option<usize>
    ensures { IfSome result (λ after. after ≡ grammar.depth_after bracket depth) }
{
    match bracket {
        Bracket::Opens(_) => depth.checked_add(1),
        Bracket::Closes(_) => Some(depth.saturating_sub(1)),
        Bracket::Neither => Some(depth),
    }
}

/// The table of the nodes of a text.
fn table_of(alloc: Global, text: &[u8]) -> Result<Table, NoMemory>
    ensures { IfOk result (λ table. Holds table (grammar.nodes_of (tokens_of text.now))) }
{
    let mut table = Table {
        notes: IndexMap::new(alloc),
    };
    let mut toks = Cursor::new(text);
    let mut depth = 0usize;
    for _turn in 0..=toks.left() {
        table.add_at(alloc, &toks, depth)?;
        match toks.next() {
            Some(item) => match depth_after(bracket_of(item), depth) {
                Some(after) => depth = after,
                None => return Err(NoMemory),
            },
            None => return Ok(table),
        }
    }
    // No text has so many tokens.
    Err(NoMemory)
}

/// A note in its own memory, where its kind may stand.
fn boxed_in_place(
    alloc: Global,
    kind: NoteKind,
    note: &Prof,
) -> Result<Option<Boxed<Prof>>, NoMemory>
    ensures { IfOk result (λ found. found ≡ grammar.in_place kind note.now) }
{
    match (kind, note) {
        (NoteKind::Entry, Prof::Entry(_))
        | (NoteKind::Weights, Prof::Weights(_))
        | (NoteKind::Targets, Prof::Targets { .. }) => Ok(Some(Boxed::new(
            alloc,
            note.copy(alloc)?,
        )?)),
        _ => Ok(None),
    }
}

/// The nodes of a text. Contracts see all their definitions. They are looked for when the first note is met, in a pass
/// over the text of its own, since they may stand anywhere in it.
#[derive(Drop)]
pub(crate) struct Nodes<'a> {
    text: &'a [u8],
    table: Option<Table>,
}

impl<'a> Model for Nodes<'a> {
    ghost use Rattle.ir_lex.specs.Cut.{tokens_of};
    ghost use Rattle.ir_grammar.specs.Notes as grammar;
    ghost use Rattle.ir_read.specs.Table.{HoldsOnce};

    ghost Value = { grammar.Nodes };

    ghost view = { λ n. grammar.nodes_of (tokens_of n.text.now) };

    ghost invariant = { λ n. HoldsOnce n.table n.text.now };
}

/// The note of a number at a place, by the table.
fn note_in(
    alloc: Global,
    table: &Table,
    kind: NoteKind,
    number: u64,
) -> Result<Option<Boxed<Prof>>, NoMemory>
    ensures { (nodes : grammar.Nodes) → Holds table.now nodes → IfOk result (λ found. found ≡ grammar.kept_note nodes kind (Some number)) }
{
    match table.get(number) {
        Some(note) => boxed_in_place(alloc, kind, note),
        None => Ok(None),
    }
}

impl<'a> Nodes<'a> {
    pub(crate) fn new(text: &'a [u8]) -> Nodes<'a>
        ensures { result ≡ grammar.nodes_of (tokens_of text.now) }
    {
        Nodes { text, table: None }
    }

    /// The note that an attachment of this node keeps at a place.
    pub(crate) fn note(
        &mut self,
        alloc: Global,
        kind: NoteKind,
        number: u64,
    ) -> Result<Option<Boxed<Prof>>, NoMemory>
        ensures found { IfOk result (λ found. found ≡ grammar.kept_note self.old kind (Some number)) }
        ensures same { self.new ≡ self.old }
    {
        if let Some(table) = &self.table {
            return note_in(alloc, table, kind, number);
        }
        let table = table_of(alloc, self.text)?;
        let found = note_in(alloc, &table, kind, number)?;
        self.table = Some(table);
        Ok(found)
    }
}
