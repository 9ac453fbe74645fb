// The edge graph of a function.
ghost use Rattle.std.specs.Prelude.{◌≡◌, ℕ, IfOk};
ghost use Rattle.cfg_edges.specs.Graph.{AreNumbered, EachHasEdge, EdgesStand, IsFlowGraph, IsGraphOf};
ghost use Rattle.ir_tree.specs.Graphs as spec;
ghost use Rattle.ir_tree.specs.Graphs.{HasGraph, graph_of};

use crate::edges::edges_of;
use crate::laws::graphs_stand;
use crate::nodes::{marked_blocks, numbers_of};
use crate::places::{Sought, places};
use crate::rows::rows_of;
use block_search::reachable;
use ir_tree::{Edge, Function};
use pgo_base::NoMemory;
use std::alloc::Global;
use std::marker::Model;

/// The edges of a function. Node 0 is outside the function; its reachable blocks are nodes 1 and up in
/// text order. Edge 0 goes from node 0 to the entry; then, block by block, come an edge for each
/// successor, or one to node 0 where there is none (LLVM Language Reference, "Terminator
/// Instructions"). Contracts see a graph as its nodes' blocks, its edges, its sites and its selects.
#[derive(Drop)]
pub struct Graph {
    // the block of each node but node 0
    blocks: Vec<u32>,
    edges: Vec<Edge>,
    sites: Vec<(u32, u64)>,
    selects: Vec<(u32, u64)>,
}

impl Model for Graph {
    ghost use Rattle.cfg_edges.specs.Graph.{IsFlowGraph};
    ghost use Rattle.ir_tree.specs.Graphs.{FlowGraph, flow_graph};

    ghost Value = { FlowGraph };

    ghost view = { λ g. flow_graph g.blocks.items g.edges.items g.sites.items g.selects.items };

    ghost invariant = { λ g. IsFlowGraph (flow_graph g.blocks.items g.edges.items g.sites.items g.selects.items) };
}

impl Graph {
    /// The graph of a function that has blocks, and whose terminators name blocks of it; its edges, its
    /// calls through a local and its selects each number fewer than 2^32. The time is linear in the
    /// function but for the search of labels.
    pub fn of(alloc: Global, function: &Function) -> Result<Graph, NoMemory>
        requires { HasGraph function.now }
        ensures graph { IfOk result (λ g. g ≡ graph_of function.now) }
        ensures relation { IfOk result (λ g. IsGraphOf function.now g) }
        ensures edges { IfOk result (λ g. EdgesStand function.now g) }
        ensures each { IfOk result (λ g. EachHasEdge function.now g) }
        ensures numbered { IfOk result (λ g. AreNumbered function.now g) }
    {
        graphs_stand();
        let blocks = function.blocks.as_slice();
        let rows = rows_of(alloc, blocks)?;
        let marks = reachable(alloc, &rows)?;
        let nodes = numbers_of(alloc, marks.as_slice())?;
        let reached = marked_blocks(alloc, marks.as_slice())?;
        let edges = edges_of(alloc, nodes.as_slice(), &rows, reached.as_slice())?;
        let sites = places(alloc, blocks, reached.as_slice(), Sought::Sites)?;
        let selects = places(alloc, blocks, reached.as_slice(), Sought::Selects)?;
        Ok(Graph {
            blocks: reached,
            edges,
            sites,
            selects,
        })
    }

    /// The number of nodes, node 0 among them. Takes no memory.
    pub fn nodes(&self) -> u32
        ensures count { result ≡ spec.nodes self.now }
        ensures whole { IsFlowGraph self.now }
    {
        self.blocks.len() as u32 + 1
    }

    /// The edges by number. Takes no memory.
    pub fn edges(&self) -> &[Edge]
        ensures value { result.now ≡ self.now.edges }
        ensures whole { IsFlowGraph self.now }
    {
        self.edges.as_slice()
    }

    /// The block of a node by its number in text order; None at node 0, and past the last node. Takes
    /// no memory.
    pub fn block_of(&self, node: u32) -> Option<u32>
        ensures { result ≡ spec.block_of self.now node }
    {
        if node == 0 {
            return None;
        }
        self.blocks.get((node - 1) as usize).copied()
    }

    /// The call sites in text order: the calls of reachable blocks whose callee is a parameter or result,
    /// each by its block and its item in it, counted from 0. Takes no memory.
    pub fn sites(&self) -> &[(u32, u64)]
        ensures value { result.now ≡ self.now.sites }
        ensures whole { IsFlowGraph self.now }
    {
        self.sites.as_slice()
    }

    /// The selects of reachable blocks in text order, each by its block and its item in it, counted from
    /// 0. Takes no memory.
    pub fn selects(&self) -> &[(u32, u64)]
        ensures value { result.now ≡ self.now.selects }
        ensures whole { IsFlowGraph self.now }
    {
        self.selects.as_slice()
    }
}
