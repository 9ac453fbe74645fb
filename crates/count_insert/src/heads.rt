// The new blocks by the label of the block to which each branches.
ghost use Rattle.std.specs.Prelude.{◌≡◌, ℕ, ◌++◌, ◌∷◌, [], List, Some, cond, slice_get, IfOk, OnOk};
ghost use Rattle.std.specs.Option.{option_copied};
ghost use Rattle.count_insert.specs.Lists.{renamings_at};
ghost use Rattle.count_plan.specs.Ways.{block_plan, new_at, renaming, renamings, renamings_from};
ghost use Rattle.ir_tree.specs.Names.{same};
ghost use Rattle.ir_tree.specs.Successors.{successors};

use crate::ways::new_at;
use count_plan::{BlockPlan, NewBlock};
use indexmap::IndexMap;
use ir_tree::{Block, Name, Seq, Term};
use pgo_base::NoMemory;
use std::alloc::Global;

// For the label of each block to which a new block branches: the label of the block before each such new one, and that of the new one.
#[derive(Drop)]
pub(crate) struct Heads {
    lists: IndexMap<Name, Seq<(Name, Name)>>,
}

impl Heads {
    fn new(alloc: Global) -> Heads
        ensures { (l : List ℕ) → renamings_at result l ≡ [] }
    {
        Heads {
            lists: IndexMap::new(alloc),
        }
    }

    // The renamings of the phis of a block.
    pub(crate) fn at(&self, label: &Name) -> &[(Name, Name)]
        ensures { result.now ≡ renamings_at self.now label.now }
    {
        match self.lists.get(label.bytes()) {
            Some(list) => list.as_slice(),
            None => &[],
        }
    }

    fn push(&mut self, alloc: Global, label: &Name, item: (Name, Name)) -> Result<(), NoMemory>
        ensures { OnOk result ((l : List ℕ) → renamings_at self.new l ≡ cond (same label.now l) (renamings_at self.old label.now ++ item ∷ []) (renamings_at self.old l)) }
    {
        let mut list = match self.lists.swap_remove(label.bytes()) {
            Some(list) => list,
            None => Seq::new(alloc),
        };
        list.push(item)?;
        self.lists.insert(label.copy(alloc)?, list)?;
        Ok(())
    }

    // Adds the new block on a way to a label, where there is one.
    fn add_new(
        &mut self,
        alloc: Global,
        tail: &Name,
        to: &Name,
        new: Option<&NewBlock>,
    ) -> Result<(), NoMemory>
        ensures { OnOk result ((l : List ℕ) → renamings_at self.new l ≡ renamings_at self.old l ++ renaming (same l to.now) tail.now (option_copied new.entry)) }
    {
        match new {
            None => Ok(()),
            Some(new) => self.push(alloc, to, (tail.copy(alloc)?, new.label.copy(alloc)?)),
        }
    }

    fn add_way(
        &mut self,
        alloc: Global,
        tail: &Name,
        plan: &BlockPlan,
        term: &Term,
        position: usize,
    ) -> Result<(), NoMemory>
        ensures { (to : List ℕ) → slice_get (successors term.now) position ≡ Some to → OnOk result ((l : List ℕ) → renamings_at self.new l ≡ renamings_at self.old l ++ renaming (same l to) tail.now (new_at plan.now position)) }
    {
        match term.successor(position) {
            Some(to) => self.add_new(alloc, tail, to, new_at(plan, position)),
            None => Ok(()),
        }
    }

    fn add_block(&mut self, alloc: Global, plan: &BlockPlan, block: &Block) -> Result<(), NoMemory>
        ensures { OnOk result ((l : List ℕ) → renamings_at self.new l ≡ renamings_at self.old l ++ renamings_from l plan.now block.now) }
    {
        for position in 0..block.term.successor_count() {
            self.add_way(alloc, &block.label, plan, &block.term, position)?;
        }
        Ok(())
    }

    // The new blocks of a function. A block that the plan is too short for has none.
    pub(crate) fn of(
        alloc: Global,
        plans: &[BlockPlan],
        blocks: &[Block],
    ) -> Result<Heads, NoMemory>
        ensures { IfOk result (λ heads. (l : List ℕ) → renamings_at heads l ≡ renamings plans.now blocks.now l) }
    {
        let mut heads = Heads::new(alloc);
        for (j, block) in blocks.iter().enumerate() {
            heads.add_at(alloc, plans, j, block)?;
        }
        Ok(heads)
    }

    fn add_at(
        &mut self,
        alloc: Global,
        plans: &[BlockPlan],
        j: usize,
        block: &Block,
    ) -> Result<(), NoMemory>
        ensures { OnOk result ((l : List ℕ) → renamings_at self.new l ≡ renamings_at self.old l ++ renamings_from l (block_plan plans.now j) block.now) }
    {
        match plans.get(j) {
            Some(plan) => self.add_block(alloc, plan, block),
            None => Ok(()),
        }
    }
}
