// The plans of blocks.
ghost use Rattle.std.specs.Prelude.{◌≡◌, ℕ, suc, ◌+◌, ◌<◌, ◌^◌, [], ◌∷◌, length, IfOk};
ghost use Rattle.std.specs.Option.{option_map};
ghost use Rattle.gen_code.specs.Ends.{AreWithin};
ghost use Rattle.gen_code.specs.Numbered.{number_at};
ghost use Rattle.gen_code.specs.OnEdges.{edge_on};
ghost use Rattle.gen_code.specs.Tables as table;
ghost use Rattle.gen_code.specs.declared.ends.End.TheVariants as ends;
ghost use Rattle.gen_plan.specs.Gen as spec;
ghost use Rattle.gen_plan.specs.Gen.{gen_block, number_of, select_watch, site_watch, watch_of};
ghost use Rattle.gen_plan.specs.Placing.{counter_of, edge_block, head_counter, new_on, tail_counter};
ghost use Rattle.ir_tree.specs.Locals.{locals};
ghost use Rattle.ir_tree.specs.Phis.{behind_phis, phi_count};
ghost use Rattle.ir_tree.specs.Successors.{successors};
ghost use Rattle.spanning_order.specs.Lists.{Among};
ghost use Rattle.spec_lists.specs.Each.{each};

use crate::ends::End;
use crate::firsts::{block_counters, edges_with_blocks};
use crate::fresh::Names;
use crate::numbers::Numbers;
use crate::placing::Placing;
use crate::tables::at;
use cfg_edges::Graph;
use count_plan::{BlockPlan, NewBlock, Watch};
use ir_tree::{Block, Function, Instr, Term, phi_count};
use pgo_base::NoMemory;
use seq::Seq;
use std::alloc::Global;

// What the plans of a function's blocks are made of.
#[derive(Drop)]
pub(crate) struct Parts<'a> {
    function: &'a Function,
    placing: Placing<'a>,
    names: Names<'a>,
    heads: Vec<Option<u32>>,
    tails: Vec<Option<u32>>,
    // the counted edges that get new blocks
    edges: Numbers,
    selects: Numbers,
    sites: Numbers,
    ghost names_are: { names.function.now ≡ function.now },
    ghost heads_are: { (b : ℕ) → table.at heads.items b ≡ head_counter placing.graph.now placing.counted.now b },
    ghost tails_are: { (b : ℕ) → table.at tails.items b ≡ tail_counter placing.graph.now placing.counted.now b },
    ghost edges_are: { (b p : ℕ) → number_at edges b p ≡ edge_on placing.graph.now placing.counted.now placing.graph.now.edges b p },
    ghost selects_are: { (b i : ℕ) → number_at selects b i ≡ number_of b i placing.graph.now.selects },
    ghost sites_are: { (b i : ℕ) → number_at sites b i ≡ number_of b i placing.graph.now.sites },
    ghost few: { spec.counters_in placing.graph.now placing.counted.now < 4294967296 },
}

impl<'a> Parts<'a> {
    pub(crate) fn of_function(
        alloc: Global,
        function: &'a Function,
        graph: &'a Graph,
        counted: &'a [u32],
    ) -> Result<Parts<'a>, NoMemory>
        requires tails { AreWithin graph.now ends.Tail (length function.now.blocks) }
        requires heads { AreWithin graph.now ends.Head (length function.now.blocks) }
        requires within { (k : ℕ) → Among k counted.now → k < length graph.now.edges }
        requires few_names { suc (length (locals function.now)) < 2 ^ 64 }
        requires few_counters { spec.counters_in graph.now counted.now < 4294967296 }
        ensures function { IfOk result (λ made. made.function.now ≡ function.now) }
        ensures graph { IfOk result (λ made. made.placing.graph.now ≡ graph.now) }
        ensures counted { IfOk result (λ made. made.placing.counted.now ≡ counted.now) }
    {
        let placing = Placing::of(alloc, graph, counted, function.blocks.len())?;
        let names = Names::of(alloc, function)?;
        let heads = block_counters(alloc, &placing, End::Head)?;
        let tails = block_counters(alloc, &placing, End::Tail)?;
        let edges = edges_with_blocks(alloc, &placing)?;
        let selects = Numbers::of(alloc, graph.selects())?;
        let sites = Numbers::of(alloc, graph.sites())?;
        Ok(Parts {
            function,
            placing,
            names,
            heads,
            tails,
            edges,
            selects,
            sites,
        })
    }

    // What stands before the select at an item of a block.
    fn select_watch(&self, alloc: Global, block: usize, item: usize) -> Result<Watch, NoMemory>
        ensures { IfOk result (λ watch. watch ≡ select_watch self.now.function.now (length self.now.placing.counted.now) (number_of block item self.now.placing.graph.now.selects)) }
    {
        match self.selects.find(block, item) {
            Some(select) => Ok(Watch::Condition {
                register: self.names.of_select(alloc, select)?,
                counter: (self.placing.counted.len() + select as usize) as u32,
            }),
            None => Ok(Watch::Nothing),
        }
    }

    // What stands before the call through a register at an item of a block.
    fn site_watch(&self, alloc: Global, block: usize, item: usize) -> Result<Watch, NoMemory>
        ensures { IfOk result (λ watch. watch ≡ site_watch self.now.function.now (number_of block item self.now.placing.graph.now.sites)) }
    {
        match self.sites.find(block, item) {
            Some(site) => Ok(Watch::Target {
                register: self.names.of_target(alloc, site)?,
                site,
            }),
            None => Ok(Watch::Nothing),
        }
    }

    fn watch_of(
        &self,
        alloc: Global,
        block: usize,
        item: usize,
        instr: &Instr,
    ) -> Result<Watch, NoMemory>
        ensures { IfOk result (λ watch. watch ≡ watch_of self.now.function.now self.now.placing.graph.now self.now.placing.counted.now block item instr.now) }
    {
        if instr.is_select() {
            self.select_watch(alloc, block, item)
        } else if instr.is_site() {
            self.site_watch(alloc, block, item)
        } else {
            Ok(Watch::Nothing)
        }
    }

    // What stands before each instruction behind the phis of a block.
    fn watches(&self, alloc: Global, block: usize, instrs: &[Instr]) -> Result<Seq<Watch>, NoMemory>
        ensures { IfOk result (λ made. made ≡ each (λ i x. watch_of self.now.function.now self.now.placing.graph.now self.now.placing.counted.now block (phi_count instrs.now + i) x ∷ []) 0 (behind_phis instrs.now)) }
    {
        let phis = phi_count(instrs);
        self.watches_from(alloc, block, phis, behind_phis(instrs))
    }

    // What stands before each of these instructions of a block, the first of them being at an item.
    fn watches_from(
        &self,
        alloc: Global,
        block: usize,
        item: usize,
        instrs: &[Instr],
    ) -> Result<Seq<Watch>, NoMemory>
        requires { item + length instrs.now < 2 ^ 64 }
        ensures { IfOk result (λ made. made ≡ each (λ i x. watch_of self.now.function.now self.now.placing.graph.now self.now.placing.counted.now block (item + i) x ∷ []) 0 instrs.now) }
    {
        let mut watches = Vec::with_capacity(alloc, instrs.len())?;
        for (i, instr) in instrs.iter().enumerate() {
            watches.push(self.watch_of(alloc, block, item + i, instr)?)?;
        }
        Ok(Seq::of(watches))
    }

    // The new block on the way out of a block by the successor at a position.
    fn new_on(
        &self,
        alloc: Global,
        block: usize,
        position: usize,
    ) -> Result<Option<NewBlock>, NoMemory>
        ensures { IfOk result (λ new. new ≡ new_on self.now.function.now self.now.placing.graph.now self.now.placing.counted.now block position) }
    {
        match self.edges.find(block, position) {
            Some(edge) => self.new_block(alloc, edge),
            None => Ok(None),
        }
    }

    // The new block on the edge of this number, if it is counted.
    fn new_block(&self, alloc: Global, edge: u32) -> Result<Option<NewBlock>, NoMemory>
        ensures { IfOk result (λ new. new ≡ option_map (edge_block self.now.function.now edge) (counter_of self.now.placing.counted.now edge)) }
    {
        match self.placing.counter(edge as usize) {
            Some(counter) => Ok(Some(NewBlock {
                label: self.names.of_edge(alloc, edge)?,
                counter: Some(counter),
            })),
            None => Ok(None),
        }
    }

    fn new_blocks(
        &self,
        alloc: Global,
        block: usize,
        term: &Term,
    ) -> Result<Seq<Option<NewBlock>>, NoMemory>
        ensures { IfOk result (λ news. news ≡ each (λ p to. new_on self.now.function.now self.now.placing.graph.now self.now.placing.counted.now block p ∷ []) 0 (successors term.now)) }
    {
        let ways = term.successor_count();
        let mut news = Vec::with_capacity(alloc, ways)?;
        for position in 0..ways {
            news.push(self.new_on(alloc, block, position)?)?;
        }
        Ok(Seq::of(news))
    }

    fn block_plan(&self, alloc: Global, number: usize, block: &Block) -> Result<BlockPlan, NoMemory>
        ensures { IfOk result (λ plan. plan ≡ gen_block self.now.function.now self.now.placing.graph.now self.now.placing.counted.now number block.now) }
    {
        Ok(BlockPlan {
            head: at(self.heads.as_slice(), number),
            watches: self.watches(alloc, number, block.instrs.as_slice())?,
            tail: at(self.tails.as_slice(), number),
            edges: self.new_blocks(alloc, number, &block.term)?,
        })
    }

    // The plans of all blocks.
    pub(crate) fn block_plans(&self, alloc: Global) -> Result<Seq<BlockPlan>, NoMemory>
        ensures { IfOk result (λ plans. plans ≡ each (λ b block. gen_block self.now.function.now self.now.placing.graph.now self.now.placing.counted.now b block ∷ []) 0 self.now.function.now.blocks) }
    {
        let blocks = self.function.blocks.as_slice();
        let mut plans = Vec::with_capacity(alloc, blocks.len())?;
        for (number, block) in blocks.iter().enumerate() {
            plans.push(self.block_plan(alloc, number, block)?)?;
        }
        Ok(Seq::of(plans))
    }
}

fn behind_phis(instrs: &[Instr]) -> &[Instr]
    ensures { result.now ≡ behind_phis instrs.now }
{
    instrs.split_at(phi_count(instrs)).1
}
