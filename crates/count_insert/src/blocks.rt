// Blocks that count, each with the new blocks on its ways out behind it.
ghost use Rattle.std.specs.Prelude.{◌≡◌, ◌++◌, ◌∷◌, IfOk, OnOk};
ghost use Rattle.count_insert.specs.Pieces.{pieces_at};
ghost use Rattle.count_plan.specs.Counted as spec;
ghost use Rattle.count_plan.specs.Counted.{counted_instrs, new_blocks};
ghost use Rattle.count_plan.specs.Ways.{block_plan, led, no_block_plan};
ghost use Rattle.ir_tree.specs.Blocks.{block_with};
ghost use Rattle.spec_lists.specs.Each.{each};

use crate::calls::{push_counted, push_increments};
use crate::entries::rename_phis;
use crate::heads::Heads;
use crate::ways::{lead, new_blocks};
use count_plan::{BlockPlan, FunctionPlan};
use ir_tree::{Block, Instr, Name, Seq, phi_count};
use pgo_base::NoMemory;
use std::alloc::Global;

fn counted_instrs(
    alloc: Global,
    unit: &FunctionPlan,
    plan: &BlockPlan,
    news: &[(Name, Name)],
    instrs: Seq<Instr>,
) -> Result<Seq<Instr>, NoMemory>
    ensures { IfOk result (λ made. made ≡ counted_instrs unit.now plan.now news.now instrs) }
{
    let count = phi_count(instrs.as_slice());
    let mut made = instrs.take();
    let others = made.split_off(count)?;
    rename_phis(alloc, news, made.as_mut_slice())?;
    push_increments(alloc, unit, plan.head, &mut made)?;
    push_counted(alloc, unit, plan, others, &mut made)?;
    Ok(Seq::of(made))
}

// Appends a block with what is put into it, and behind it the new blocks on its ways out.
fn push_pieces(
    alloc: Global,
    unit: &FunctionPlan,
    plan: &BlockPlan,
    news: &[(Name, Name)],
    block: Block,
    made: &mut Vec<Block>,
) -> Result<(), NoMemory>
    ensures { OnOk result (made.new.items ≡ made.old.items ++ block_with block.label (counted_instrs unit.now plan.now news.now block.instrs) (led plan.now block.term) ∷ new_blocks unit.now plan.now block) }
{
    let mut behind = new_blocks(alloc, unit, plan, &block)?;
    let Block {
        label,
        instrs,
        mut term,
    } = block;
    let instrs = counted_instrs(alloc, unit, plan, news, instrs)?;
    lead(alloc, plan, &mut term)?;
    made.push(Block {
        label,
        instrs,
        term,
    })?;
    made.append(&mut behind)?;
    Ok(())
}

// The blocks of a function, with what is put into it. A block that the plan is too short for has none of it.
pub(crate) fn counted_blocks(
    alloc: Global,
    unit: &FunctionPlan,
    blocks: Vec<Block>,
) -> Result<Vec<Block>, NoMemory>
    ensures { IfOk result (λ made. made.items ≡ spec.counted_blocks unit.now blocks.items) }
{
    let heads = Heads::of(alloc, unit.blocks.as_slice(), blocks.as_slice())?;
    let nothing = nothing(alloc);
    let mut made = Vec::with_capacity(alloc, blocks.len())?;
    push_blocks(alloc, unit, &heads, &nothing, blocks, &mut made)?;
    Ok(made)
}

// The plan that puts nothing into a block.
fn nothing(alloc: Global) -> BlockPlan
    ensures { result ≡ no_block_plan }
{
    BlockPlan {
        head: None,
        watches: Seq::new(alloc),
        tail: None,
        edges: Seq::new(alloc),
    }
}

fn plan_at<'a>(plans: &'a [BlockPlan], j: usize, nothing: &'a BlockPlan) -> &'a BlockPlan
    requires { nothing.now ≡ no_block_plan }
    ensures { result.now ≡ block_plan plans.now j }
{
    match plans.get(j) {
        Some(plan) => plan,
        None => nothing,
    }
}

// Appends the block of this number and the new blocks behind it.
fn push_block(
    alloc: Global,
    unit: &FunctionPlan,
    heads: &Heads,
    nothing: &BlockPlan,
    j: usize,
    block: Block,
    made: &mut Vec<Block>,
) -> Result<(), NoMemory>
    requires { nothing.now ≡ no_block_plan }
    ensures { OnOk result (made.new.items ≡ made.old.items ++ pieces_at unit.now heads.now j block) }
{
    let plan = plan_at(unit.blocks.as_slice(), j, nothing);
    let news = heads.at(&block.label);
    push_pieces(alloc, unit, plan, news, block, made)
}

fn push_blocks(
    alloc: Global,
    unit: &FunctionPlan,
    heads: &Heads,
    nothing: &BlockPlan,
    blocks: Vec<Block>,
    made: &mut Vec<Block>,
) -> Result<(), NoMemory>
    requires { nothing.now ≡ no_block_plan }
    ensures { OnOk result (made.new.items ≡ made.old.items ++ each (pieces_at unit.now heads.now) 0 blocks.items) }
{
    let mut j = 0;
    for block in blocks {
        push_block(alloc, unit, heads, nothing, j, block, made)?;
        j += 1;
    }
    Ok(())
}
