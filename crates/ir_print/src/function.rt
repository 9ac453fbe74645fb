// Functions and their blocks.
ghost use Rattle.std.specs.Prelude.{◌≡◌, ◌++◌, ◌∷◌, [], codes, OnOk};
ghost use Rattle.std.specs.List.{flat_map};
ghost use Rattle.ir_lex.specs.Tokens.{Label, Global};
ghost use Rattle.text_pieces.specs.declared.stop.Stop.{Stop};
ghost use Rattle.text_pieces.specs.declared.stop.Stop.TheVariants.{CloseParen};
ghost use Rattle.text_pieces.specs.Written.{written};
ghost use Rattle.text_pieces.specs.Pieces.{text_of};
ghost use Rattle.text_pieces.specs.Lists.{items, parted};
ghost use Rattle.canonical_text.specs.Words as words;
ghost use Rattle.canonical_text.specs.Instructions.{instr_pieces, term_pieces};
ghost use Rattle.canonical_text.specs.Canonical as spec;

use crate::instr::push_instrs;
use crate::node::push_head_note;
use crate::nodes::Nodes;
use crate::term::push_term;
use crate::words::{return_word, type_word};
use ir_tree::{Block, Function, Name, Prof, Ty};
use pgo_base::NoMemory;
use push_text::push;
use sqlite_items::Boxed;
use text_pieces::{Stop, push_global, push_label, push_local, push_stop, stop_at};

fn push_label_line(out: &mut Vec<u8>, name: &Name) -> Result<(), NoMemory>
    ensures { OnOk result (out.new.items ≡ out.old.items ++ written (Label name.now) ++ codes "\n") }
{
    push_label(out, name.bytes())?;
    push(out, b"\n")
}

#[tactic(auto, using(canonical_text::specs::Canonical::block_text))]
fn push_block(out: &mut Vec<u8>, nodes: &Nodes, block: &Block) -> Result<(), NoMemory>
    ensures { OnOk result (out.new.items ≡ out.old.items ++ text_of (spec.block_pieces nodes.now block.now)) }
{
    push_label_line(out, &block.label)?;
    push_instrs(out, nodes, block.instrs.as_slice())?;
    push_term(out, nodes, &block.term)
}

fn push_blocks(out: &mut Vec<u8>, nodes: &Nodes, blocks: &[Block]) -> Result<(), NoMemory>
    ensures { OnOk result (out.new.items ≡ out.old.items ++ flat_map (λ b. text_of (spec.block_pieces nodes.now b)) blocks.now) }
{
    for block in blocks {
        push_block(out, nodes, block)?;
    }
    Ok(())
}

fn push_type(out: &mut Vec<u8>, param: &(Ty, Name), stop: Stop) -> Result<(), NoMemory>
    ensures { OnOk result (out.new.items ≡ out.old.items ++ text_of (spec.type_pieces param.now stop)) }
{
    push(out, type_word(param.0))?;
    push_stop(out, stop)
}

fn push_types(out: &mut Vec<u8>, params: &[(Ty, Name)]) -> Result<(), NoMemory>
    ensures { OnOk result (out.new.items ≡ out.old.items ++ text_of (items spec.type_pieces CloseParen params.now)) }
{
    for (i, param) in params.iter().enumerate() {
        push_type(out, param, stop_at(i, params.len(), Stop::CloseParen))?;
    }
    Ok(())
}

fn push_type_list(out: &mut Vec<u8>, params: &[(Ty, Name)]) -> Result<(), NoMemory>
    ensures { OnOk result (out.new.items ≡ out.old.items ++ text_of (parted spec.type_pieces CloseParen params.now)) }
{
    if params.is_empty() {
        return push(out, b")");
    }
    push_types(out, params)
}

fn push_param(out: &mut Vec<u8>, param: &(Ty, Name), stop: Stop) -> Result<(), NoMemory>
    ensures { OnOk result (out.new.items ≡ out.old.items ++ text_of (spec.param_pieces param.now stop)) }
{
    push(out, type_word(param.0))?;
    push(out, b" ")?;
    push_local(out, param.1.bytes())?;
    push_stop(out, stop)
}

fn push_params(out: &mut Vec<u8>, params: &[(Ty, Name)]) -> Result<(), NoMemory>
    ensures { OnOk result (out.new.items ≡ out.old.items ++ text_of (items spec.param_pieces CloseParen params.now)) }
{
    for (i, param) in params.iter().enumerate() {
        push_param(out, param, stop_at(i, params.len(), Stop::CloseParen))?;
    }
    Ok(())
}

fn push_param_list(out: &mut Vec<u8>, params: &[(Ty, Name)]) -> Result<(), NoMemory>
    ensures { OnOk result (out.new.items ≡ out.old.items ++ text_of (parted spec.param_pieces CloseParen params.now)) }
{
    if params.is_empty() {
        return push(out, b")");
    }
    push_params(out, params)
}

// `RT @f(`
fn push_signature(out: &mut Vec<u8>, function: &Function) -> Result<(), NoMemory>
    ensures { OnOk result (out.new.items ≡ out.old.items ++ words.return_word function.now.ret ++ 32 ∷ written (Global function.now.name) ++ codes "(") }
{
    push(out, return_word(function.ret))?;
    push(out, b" ")?;
    push_global(out, function.name.bytes())?;
    push(out, b"(")
}

fn push_types_line(out: &mut Vec<u8>, params: &[(Ty, Name)]) -> Result<(), NoMemory>
    ensures { OnOk result (out.new.items ≡ out.old.items ++ text_of (parted spec.type_pieces CloseParen params.now) ++ codes "\n") }
{
    push_type_list(out, params)?;
    push(out, b"\n")
}

fn push_declaration(out: &mut Vec<u8>, function: &Function) -> Result<(), NoMemory>
    ensures { OnOk result (out.new.items ≡ out.old.items ++ text_of (spec.declaration_pieces function.now)) }
{
    push(out, b"declare ")?;
    push_signature(out, function)?;
    push_types_line(out, function.params.as_slice())
}

// `{`, the blocks and `}`
#[tactic(auto, using(canonical_text::specs::Canonical::braced_text))]
fn push_braced(out: &mut Vec<u8>, nodes: &Nodes, blocks: &[Block]) -> Result<(), NoMemory>
    ensures { OnOk result (out.new.items ≡ out.old.items ++ text_of (spec.braced_pieces nodes.now blocks.now)) }
{
    push(out, b"{\n")?;
    push_blocks(out, nodes, blocks)?;
    push(out, b"}\n")
}

#[tactic(auto, using(canonical_text::specs::Canonical::body_text))]
fn push_body(
    out: &mut Vec<u8>,
    nodes: &Nodes,
    prof: &Option<Boxed<Prof>>,
    blocks: &[Block],
) -> Result<(), NoMemory>
    ensures { OnOk result (out.new.items ≡ out.old.items ++ text_of (spec.body_pieces nodes.now prof.now blocks.now)) }
{
    push(out, b" ")?;
    push_head_note(out, nodes, prof)?;
    push_braced(out, nodes, blocks)
}

fn push_head(out: &mut Vec<u8>, function: &Function) -> Result<(), NoMemory>
    ensures { OnOk result (out.new.items ≡ out.old.items ++ text_of (spec.head_pieces function.now)) }
{
    push(out, b"define ")?;
    push_signature(out, function)?;
    push_param_list(out, function.params.as_slice())
}

#[tactic(auto, using(canonical_text::specs::Canonical::definition_text))]
fn push_definition(out: &mut Vec<u8>, nodes: &Nodes, function: &Function) -> Result<(), NoMemory>
    ensures { OnOk result (out.new.items ≡ out.old.items ++ text_of (spec.definition_pieces nodes.now function.now)) }
{
    push_head(out, function)?;
    push_body(out, nodes, &function.prof, function.blocks.as_slice())
}

fn is_defined(function: &Function) -> bool
    ensures { result ≡ spec.has_body function.now.blocks }
{
    !function.blocks.as_slice().is_empty()
}

/// Appends a function.
pub(crate) fn push_function(
    out: &mut Vec<u8>,
    nodes: &Nodes,
    function: &Function,
) -> Result<(), NoMemory>
    ensures { OnOk result (out.new.items ≡ out.old.items ++ text_of (spec.function_pieces nodes.now function.now)) }
{
    if is_defined(function) {
        return push_definition(out, nodes, function);
    }
    push_declaration(out, function)
}
