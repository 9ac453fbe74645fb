// The depth-first walk through the nodes of a graph.
ghost use Rattle.std.specs.Prelude.{◌≡◌, ◌≢◌, ◌+◌, ◌-◌, ◌<◌, [], ◌∷◌, ◌++◌, length, cond, IfOk, OnOk, slice_index};
ghost use Rattle.cfg_tree.specs.Chains.{AreChains, EndsAreBelow};
ghost use Rattle.cfg_tree.specs.Walking.{Walking, after_look, frame, state};
ghost use Rattle.cfg_tree.specs.Walk as spec;
ghost use Rattle.ir_tree.specs.Reach.{is_marked};
ghost use Rattle.cfg_tree.specs.declared.chains.End.TheVariants as ends;
ghost use Rattle.spanning_order.specs.Spanning.{edge_at};

use crate::chains::{Chains, End};
use crate::marks::no_marks;
use ir_tree::Edge;
use pgo_base::NoMemory;
use std::alloc::Global;
use std::marker::Model;

// Which nodes a walk has entered and which it has finished, and which edges led back to a node that was
// entered and not finished.
#[derive(Drop)]
struct Walk {
    entered: Vec<bool>,
    finished: Vec<bool>,
    back: Vec<bool>,
}

impl Model for Walk {
    ghost use Rattle.cfg_tree.specs.Walk.{Seen, seen};

    ghost Value = { Seen };

    ghost view = { λ w. seen w.entered.items w.finished.items w.back.items };
}

impl Walk {
    fn new(alloc: Global, nodes: u32, edges: usize) -> Result<Walk, NoMemory>
        ensures { IfOk result (λ w. w ≡ spec.unseen nodes edges) }
    {
        Ok(Walk {
            entered: no_marks(alloc, nodes as usize)?,
            finished: no_marks(alloc, nodes as usize)?,
            back: no_marks(alloc, edges)?,
        })
    }

    fn is_entered(&self, node: u32) -> bool
        requires { node < length self.now.entered }
        ensures { result ≡ is_marked self.now.entered node }
    {
        self.entered[node as usize]
    }

    fn is_finished(&self, node: u32) -> bool
        requires { node < length self.now.finished }
        ensures { result ≡ is_marked self.now.finished node }
    {
        self.finished[node as usize]
    }

    fn enter(&mut self, node: u32)
        requires { node < length self.old.entered }
        ensures { self.new ≡ spec.enters node self.old }
    {
        self.entered[node as usize] = true;
    }

    fn finish(&mut self, node: u32)
        requires { node < length self.old.finished }
        ensures { self.new ≡ spec.finishes node self.old }
    {
        self.finished[node as usize] = true;
    }

    fn go_back(&mut self, edge: u32)
        requires { edge < length self.old.back }
        ensures { self.new ≡ spec.goes_back edge self.old }
    {
        self.back[edge as usize] = true;
    }
}

// Which edges of so many nodes lead back, in the walk from node 1 that takes the edges of a node by
// rising number.
pub(crate) fn back_edges(alloc: Global, edges: &[Edge], nodes: u32) -> Result<Vec<bool>, NoMemory>
    requires tails { EndsAreBelow ends.Tail edges.now nodes }
    requires heads { EndsAreBelow ends.Head edges.now nodes }
    requires some { 1 < nodes }
    requires few { length edges.now < 4294967296 }
    ensures size { IfOk result (λ back. length back.items ≡ length edges.now) }
    ensures back { IfOk result (λ back. back.items ≡ (spec.walked nodes edges.now).back) }
{
    let chains = Chains::of(alloc, edges, nodes, End::Tail)?;
    let mut walk = Walk::new(alloc, nodes, edges.len())?;
    // node 0 is outside the function
    walk.enter(0);
    walk.finish(0);
    walk.enter(1);
    let stack = vec![in alloc; (1, chains.first(1))]?;
    go_on(edges, &chains, &mut walk, stack)?;
    let Walk {
        entered: _,
        finished: _,
        back,
    } = walk;
    Ok(back)
}

// Looks at the edges that are left at the nodes of the stack, and at those of the nodes behind them.
fn go_on(
    edges: &[Edge],
    chains: &Chains,
    walk: &mut Walk,
    mut stack: Vec<(u32, u32)>,
) -> Result<(), NoMemory>
    requires chains { AreChains ends.Tail edges.now (length walk.old.entered) chains.now.first.items chains.now.next.items }
    requires heads { EndsAreBelow ends.Head edges.now (length walk.old.entered) }
    requires walking { Walking edges.now (length walk.old.entered) walk.old stack.items }
    ensures size { OnOk result (length walk.new.back ≡ length edges.now) }
    ensures walk { OnOk result (walk.new ≡ spec.walked (length walk.old.entered) edges.now) }
{
    while let Some((node, place)) = stack.pop() {
        if place == 0 {
            walk.finish(node);
        } else {
            look(edges, chains, node, place - 1, walk, &mut stack)?;
        }
    }
    Ok(())
}

// Looks at an edge of a node, whose other edges wait.
fn look(
    edges: &[Edge],
    chains: &Chains,
    node: u32,
    edge: u32,
    walk: &mut Walk,
    stack: &mut Vec<(u32, u32)>,
) -> Result<(), NoMemory>
    requires chains { AreChains ends.Tail edges.now (length walk.old.entered) chains.now.first.items chains.now.next.items }
    requires heads { EndsAreBelow ends.Head edges.now (length walk.old.entered) }
    requires finished { length walk.old.finished ≡ length walk.old.entered }
    requires back { length walk.old.back ≡ length edges.now }
    requires edge { edge < length edges.now }
    ensures { let t = (edge_at edges.now edge).to in OnOk result (state walk.new stack.new.items ≡ after_look edge t (is_marked walk.old.entered t) (is_marked walk.old.finished t) (slice_index chains.now.first.items t) walk.old (stack.old.items ++ frame node (slice_index chains.now.next.items edge) ∷ [])) }
{
    stack.push((node, chains.next(edge)))?;
    let to = edges[edge as usize].to;
    if !walk.is_entered(to) {
        walk.enter(to);
        stack.push((to, chains.first(to)))?;
    } else if !walk.is_finished(to) {
        walk.go_back(edge);
    }
    Ok(())
}
