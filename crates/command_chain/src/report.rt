// The edges report of counted walks.
ghost use Rattle.std.specs.Prelude.{◌≡◌, ℕ, ◌++◌, OnOk, Some, false, get_or, length, slice_get};
ghost use Rattle.std.specs.Option.{option_copied};
ghost use Rattle.ir_tree.specs.Functions.{function_at, is_declared};
ghost use Rattle.ir_tree.specs.Graphs.{HasGraph, block_of, graph_of};
ghost use Rattle.ir_tree.specs.declared.edge.Edge.{Edge};
ghost use Rattle.ir_rules.specs.Accepted.{IsAccepted};
ghost use Rattle.ir_rules.specs.Kinds.{kind_of};
ghost use Rattle.ir_rules.specs.declared.place.Kind.TheVariants.{Plain};
ghost use Rattle.ir_machine.specs.Slots.{HasEdge, edges_of_all};
ghost use Rattle.command_chain.specs.Counted.{counted_at};
ghost use Rattle.command_chain.specs.Report.{edge_line, edge_lines, function_lines, function_report, label_text, node_text, report};

use cfg_edges::{Edge, Graph};
use ir_check::{Checked, accepted_are_small, functions_have_graphs, functions_have_numbers};
use ir_machine::{Code, edges_are_counted};
use ir_tree::{Block, Function, push_global_name, push_local_name};
use pgo_base::NoMemory;
use push_text::{push, push_number};
use std::alloc::Global;

/// Appends the report of all functions: for each defined one the edges of its graph with their counts.
pub fn push_report(
    alloc: Global,
    module: &Checked,
    code: &Code,
    counts: &[u64],
    out: &mut Vec<u8>,
) -> Result<(), NoMemory>
    requires code { code.now ≡ «module».now }
    requires accepted { IsAccepted «module».now }
    requires plain { kind_of «module».now.functions ≡ Plain }
    requires all { length counts.now ≡ edges_of_all code.now }
    ensures { OnOk result (out.new.items ≡ out.old.items ++ report (counted_at code.now counts.now) 0 «module».now.functions) }
{
    accepted_are_small();
    functions_have_graphs();
    functions_have_numbers();
    for (number, function) in module.module().functions.as_slice().iter().enumerate() {
        push_function(alloc, code, counts, number as u32, function, out)?;
    }
    Ok(())
}

// Appends the lines of a function, none of a declared one.
fn push_function(
    alloc: Global,
    code: &Code,
    counts: &[u64],
    number: u32,
    function: &Function,
    out: &mut Vec<u8>,
) -> Result<(), NoMemory>
    requires graph { is_declared function.now ≡ false → HasGraph function.now }
    requires at { function_at code.now number ≡ Some function.now }
    requires all { length counts.now ≡ edges_of_all code.now }
    ensures { OnOk result (out.new.items ≡ out.old.items ++ function_report (counted_at code.now counts.now number) function.now) }
{
    if function.is_declared() {
        return Ok(());
    }
    push_definition(alloc, code, counts, number, function, out)
}

// Appends the lines of a defined function.
#[tactic(auto, unfolding(crate::specs::Report::function_lines))]
fn push_definition(
    alloc: Global,
    code: &Code,
    counts: &[u64],
    number: u32,
    function: &Function,
    out: &mut Vec<u8>,
) -> Result<(), NoMemory>
    requires graph { HasGraph function.now }
    requires at { function_at code.now number ≡ Some function.now }
    requires all { length counts.now ≡ edges_of_all code.now }
    ensures { OnOk result (out.new.items ≡ out.old.items ++ function_lines (counted_at code.now counts.now number) function.now (graph_of function.now)) }
{
    edges_are_counted();
    let graph = Graph::of(alloc, function)?;
    push(out, b"function @")?;
    push_global_name(out, function.name.bytes())?;
    push(out, b" solved\n")?;
    push_edges(
        code,
        counts,
        number,
        function.blocks.as_slice(),
        &graph,
        out,
    )
}

// Appends a line for each edge.
fn push_edges(
    code: &Code,
    counts: &[u64],
    number: u32,
    blocks: &[Block],
    graph: &Graph,
    out: &mut Vec<u8>,
) -> Result<(), NoMemory>
    requires edges { (n : ℕ) (e : Edge) → slice_get graph.now.edges n ≡ Some e → HasEdge code.now number e.block e.position }
    requires all { length counts.now ≡ edges_of_all code.now }
    ensures { OnOk result (out.new.items ≡ out.old.items ++ edge_lines (counted_at code.now counts.now number) blocks.now graph.now 0 graph.now.edges) }
{
    for (index, edge) in graph.edges().iter().enumerate() {
        let count = counts[code.slot(number, edge.block, edge.position)];
        push_edge(blocks, graph, index as u64, edge, count, out)?;
    }
    Ok(())
}

// Appends the line of an edge.
#[tactic(auto, unfolding(crate::specs::Report::edge_line))]
fn push_edge(
    blocks: &[Block],
    graph: &Graph,
    index: u64,
    edge: &Edge,
    count: u64,
    out: &mut Vec<u8>,
) -> Result<(), NoMemory>
    ensures { OnOk result (out.new.items ≡ out.old.items ++ edge_line blocks.now graph.now index edge.now count) }
{
    push(out, b"edge ")?;
    push_number(out, index)?;
    push(out, b" ")?;
    push_node(blocks, graph, edge.from, out)?;
    push(out, b" ")?;
    push_node(blocks, graph, edge.to, out)?;
    push(out, b" ")?;
    push_number(out, count)?;
    push(out, b"\n")
}

// Appends a node: the label of its block, and `-` for the node outside.
fn push_node(blocks: &[Block], graph: &Graph, node: u32, out: &mut Vec<u8>) -> Result<(), NoMemory>
    ensures { OnOk result (out.new.items ≡ out.old.items ++ node_text blocks.now (block_of graph.now node)) }
{
    match graph.block_of(node) {
        None => push(out, b"-"),
        Some(place) => push_label(blocks.get(place as usize), out),
    }
}

fn push_label(block: Option<&Block>, out: &mut Vec<u8>) -> Result<(), NoMemory>
    ensures { OnOk result (out.new.items ≡ out.old.items ++ label_text (option_copied block.entry)) }
{
    match block {
        None => Ok(()),
        Some(block) => {
            push(out, b"%")?;
            push_local_name(out, block.label.bytes())
        }
    }
}
