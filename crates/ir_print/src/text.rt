// The text of a module.
ghost use Rattle.std.specs.Prelude.{◌≡◌, ◌++◌, ◌∷◌, OnOk};
ghost use Rattle.std.specs.List.{flat_map};
ghost use Rattle.text_pieces.specs.Pieces.{text_of};
ghost use Rattle.canonical_text.specs.Canonical as spec;

use crate::function::push_function;
use crate::node::push_nodes;
use crate::nodes::Nodes;
use crate::variable::push_variables;
use ir_tree::{Function, Global1, Module};
use pgo_base::NoMemory;
use push_text::push;
use std::alloc::Global;

fn push_later(out: &mut Vec<u8>, nodes: &Nodes, function: &Function) -> Result<(), NoMemory>
    ensures { OnOk result (out.new.items ≡ out.old.items ++ text_of (spec.later_function nodes.now function.now)) }
{
    push(out, b"\n")?;
    push_function(out, nodes, function)
}

fn push_first(
    out: &mut Vec<u8>,
    nodes: &Nodes,
    preceded: bool,
    function: &Function,
) -> Result<(), NoMemory>
    ensures { OnOk result (out.new.items ≡ out.old.items ++ text_of (spec.parted_line preceded (spec.function_pieces nodes.now function.now))) }
{
    if preceded {
        return push_later(out, nodes, function);
    }
    push_function(out, nodes, function)
}

fn push_others(out: &mut Vec<u8>, nodes: &Nodes, functions: &[Function]) -> Result<(), NoMemory>
    ensures { OnOk result (out.new.items ≡ out.old.items ++ flat_map (λ f. text_of (spec.later_function nodes.now f)) functions.now) }
{
    for function in functions {
        push_later(out, nodes, function)?;
    }
    Ok(())
}

fn push_parted(
    out: &mut Vec<u8>,
    nodes: &Nodes,
    preceded: bool,
    first: &Function,
    others: &[Function],
) -> Result<(), NoMemory>
    ensures { OnOk result (out.new.items ≡ out.old.items ++ text_of (spec.functions_pieces nodes.now preceded (first.now ∷ others.now))) }
{
    push_first(out, nodes, preceded, first)?;
    push_others(out, nodes, others)
}

fn push_functions(
    out: &mut Vec<u8>,
    nodes: &Nodes,
    preceded: bool,
    functions: &[Function],
) -> Result<(), NoMemory>
    ensures { OnOk result (out.new.items ≡ out.old.items ++ text_of (spec.functions_pieces nodes.now preceded functions.now)) }
{
    match functions {
        [] => Ok(()),
        [first, others @ ..] => push_parted(out, nodes, preceded, first, others),
    }
}

// whether anything precedes the functions
fn is_preceded(globals: &[Global1]) -> bool
    ensures { result ≡ spec.has_any globals.now }
{
    !globals.is_empty()
}

fn push_module(out: &mut Vec<u8>, nodes: &Nodes, module: &Module) -> Result<(), NoMemory>
    ensures { OnOk result (out.new.items ≡ out.old.items ++ text_of (spec.module_pieces nodes.now «module».now)) }
{
    let globals = module.globals.as_slice();
    push_variables(out, globals)?;
    push_functions(
        out,
        nodes,
        is_preceded(globals),
        module.functions.as_slice(),
    )?;
    push_nodes(out, nodes.notes())
}

/// Appends the one canonical text of a module (LLVM Language Reference, "Module Structure"): its global variables, its
/// functions with an empty line before each where anything precedes, and behind an empty line the nodes of its profile
/// notes, equal notes as one node, numbered by their first appearance.
#[tactic(auto, unfolding(canonical_text::specs::Canonical::canonical))]
pub fn print(alloc: Global, out: &mut Vec<u8>, module: &Module) -> Result<(), NoMemory>
    ensures { OnOk result (out.new.items ≡ out.old.items ++ spec.canonical «module».now) }
{
    let nodes = Nodes::of(alloc, module)?;
    push_module(out, &nodes, module)
}
