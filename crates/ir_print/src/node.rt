// What names a node at the end of a line or a head, and the lines of the nodes.
ghost use Rattle.std.specs.Prelude.{◌≡◌, ◌++◌, ◌∷◌, [], codes, decimal, OnOk};
ghost use Rattle.text_pieces.specs.Pieces.{text_of};
ghost use Rattle.canonical_text.specs.Notes.{line_end, number_of};
ghost use Rattle.canonical_text.specs.Canonical.{head_note, node_lines, node_pieces, nodes_pieces};

use crate::nodes::Nodes;
use crate::note::push_note;
use ir_tree::Prof;
use pgo_base::NoMemory;
use push_text::{push, push_number};
use sqlite_items::Boxed;

// `!prof !N`
fn push_attached(out: &mut Vec<u8>, nodes: &Nodes, note: &Prof) -> Result<(), NoMemory>
    ensures { OnOk result (out.new.items ≡ out.old.items ++ codes "!prof !" ++ decimal (number_of nodes.now note.now)) }
{
    let number = nodes.number(note)?;
    push(out, b"!prof !")?;
    push_number(out, number as u64)
}

/// Appends the end of a line that may have a note.
#[tactic(auto, unfolding(canonical_text::specs::Notes::line_end))]
pub(crate) fn push_line_end(
    out: &mut Vec<u8>,
    nodes: &Nodes,
    prof: &Option<Boxed<Prof>>,
) -> Result<(), NoMemory>
    ensures { OnOk result (out.new.items ≡ out.old.items ++ line_end nodes.now prof.now) }
{
    match prof {
        None => push(out, b"\n"),
        Some(note) => {
            push(out, b", ")?;
            push_attached(out, nodes, note.get())?;
            push(out, b"\n")
        }
    }
}

/// Appends the note of a definition, before its brace.
pub(crate) fn push_head_note(
    out: &mut Vec<u8>,
    nodes: &Nodes,
    prof: &Option<Boxed<Prof>>,
) -> Result<(), NoMemory>
    ensures { OnOk result (out.new.items ≡ out.old.items ++ text_of (head_note nodes.now prof.now [])) }
{
    match prof {
        None => Ok(()),
        Some(note) => {
            push_attached(out, nodes, note.get())?;
            push(out, b" ")
        }
    }
}

// `!N = `
fn push_node_head(out: &mut Vec<u8>, number: u64) -> Result<(), NoMemory>
    ensures { OnOk result (out.new.items ≡ out.old.items ++ 33 ∷ decimal number ++ codes " = ") }
{
    push(out, b"!")?;
    push_number(out, number)?;
    push(out, b" = ")
}

#[tactic(auto, using(canonical_text::specs::Canonical::node_text))]
fn push_node(out: &mut Vec<u8>, number: u64, note: &Prof) -> Result<(), NoMemory>
    ensures { OnOk result (out.new.items ≡ out.old.items ++ text_of (node_pieces number note.now)) }
{
    push_node_head(out, number)?;
    push_note(out, note)?;
    push(out, b"\n")
}

fn push_node_lines(out: &mut Vec<u8>, notes: &[Prof]) -> Result<(), NoMemory>
    ensures { OnOk result (out.new.items ≡ out.old.items ++ text_of (node_lines 0 notes.now)) }
{
    for (i, note) in notes.iter().enumerate() {
        push_node(out, i as u64, note)?;
    }
    Ok(())
}

/// Appends the nodes, behind an empty line.
pub(crate) fn push_nodes(out: &mut Vec<u8>, notes: &[Prof]) -> Result<(), NoMemory>
    ensures { OnOk result (out.new.items ≡ out.old.items ++ text_of (nodes_pieces notes.now)) }
{
    if notes.is_empty() {
        return Ok(());
    }
    push(out, b"\n")?;
    push_node_lines(out, notes)
}
