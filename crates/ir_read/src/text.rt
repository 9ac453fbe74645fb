//! The whole text of a module.

ghost use Rattle.std.specs.Prelude.{◌≡◌, ◌≤◌, length, IfOk, IfErr};
ghost use Rattle.ir_tree.specs.declared.types.Module.{Module};
ghost use Rattle.ir_lex.specs.Cut.{tokens_of, is_whole};
ghost use Rattle.ir_grammar.specs.Notes.{nodes_of};
ghost use Rattle.ir_read.specs.Spelled.{SpellsText, Refuses, most_bytes};

use crate::cursor::Cursor;
use crate::error::ReadError;
use crate::laws::one_module;
use crate::nodes::Nodes;
use crate::part::module;
use crate::stop::Stop;
use ir_grammar::module_ends;
use ir_lex::cut_is_spelled;
use ir_tree::Module;
use std::alloc::Global;

/// The most bytes that a text has.
const MOST_BYTES: usize = 16_777_216;

/// The module that the tokens of a text spell.
fn module_of(
    alloc: Global,
    text: &[u8],
    toks: &mut Cursor,
    nodes: &mut Nodes,
) -> Result<Module, ReadError>
    requires within { length text.now ≤ most_bytes }
    requires tokens { toks.old.tokens ≡ tokens_of text.now }
    requires whole { toks.old.whole ≡ is_whole text.now }
    requires nodes { nodes.old ≡ nodes_of (tokens_of text.now) }
    ensures found { IfOk result (λ m. SpellsText text.now m) }
    ensures refused { IfErr result (λ error. Refuses text.now error) }
{
    cut_is_spelled();
    module_ends();
    match module(alloc, toks, nodes) {
        Ok(module) => {
            if toks.is_whole() {
                Ok(module)
            } else {
                Err(ReadError::Syntax {
                    at: toks.next_at().min(text.len()),
                })
            }
        }
        Err(Stop::Syntax) => Err(ReadError::Syntax {
            at: toks.at().min(text.len()),
        }),
        Err(Stop::NoMemory) => Err(ReadError::NoMemory),
    }
}

/// The module that the text spells.
///
/// `TextLimit` comes exactly where the text has more than 16,777,216 bytes, and `Syntax` exactly where it has not and
/// spells no module.
pub fn read(alloc: Global, text: &[u8]) -> Result<Module, ReadError>
    ensures found { IfOk result (λ m. SpellsText text.now m) }
    ensures within { IfOk result (λ _. length text.now ≤ most_bytes) }
    ensures refused { IfErr result (λ error. Refuses text.now error) }
    ensures once { (m n : Module) → SpellsText text.now m → SpellsText text.now n → m ≡ n }
{
    one_module();
    if text.len() > MOST_BYTES {
        return Err(ReadError::TextLimit { length: text.len() });
    }
    let mut toks = Cursor::new(text);
    let mut nodes = Nodes::new(text);
    module_of(alloc, text, &mut toks, &mut nodes)
}
