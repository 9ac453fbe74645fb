// The plan with one new block, and the function that is made from it.
ghost use Rattle.std.specs.Prelude.{◌≡◌, ℕ, Some, None, count_by, slice_get, IfOk};
ghost use Rattle.count_likeness.specs.Formed.{AreFormed};
ghost use Rattle.count_plan.specs.Ways.{no_block_plan};
ghost use Rattle.edge_split.specs.Split as spec;
ghost use Rattle.edge_split.specs.Split.{MarksStay, at_place, split_block, split_plan, with_function};
ghost use Rattle.ir_likeness.specs.Like.{AreLike};
ghost use Rattle.ir_tree.specs.Blocks.{labels};
ghost use Rattle.ir_tree.specs.Names.{same};
ghost use Rattle.ir_tree.specs.declared.types.Module.{Module};
ghost use Rattle.split_accepted.specs.Accepted.{HasRoom, IsFreeLabel, IsPlainAccepted};

use count_insert::insert_into_function;
use count_plan::{BlockPlan, FunctionPlan, NewBlock};
use edge_split::split_behaves;
use ir_tree::{Function, Name, Seq};
use pgo_base::NoMemory;
use split_accepted::split_is_accepted;
use std::alloc::Global;

/// The function with a new block of this label on the way out of a block, counted from 0, by its successor at a position. The new
/// block stands directly behind that one, and of each phi of the block to which it branches the first entry for the block before it
/// names it. Where the block or the position is none of the function's, it stays as it is. The parts of the function move, and
/// it is refused for want of memory alone.
pub fn split(
    alloc: Global,
    block: usize,
    position: usize,
    label: Name,
    function: Function,
) -> Result<Function, NoMemory>
    ensures made { IfOk result (λ made. made ≡ spec.split block position label function) }
    ensures behaves { (m : Module) (j : ℕ) → AreFormed m → slice_get m.functions j ≡ Some function → count_by (same label) (labels function.blocks) ≡ 0 → IfOk result (λ made. AreLike m (with_function m j made) 2 0) }
    ensures marks { (m : Module) (j : ℕ) → AreFormed m → slice_get m.functions j ≡ Some function → count_by (same label) (labels function.blocks) ≡ 0 → IfOk result (λ made. MarksStay m (with_function m j made) 2 0) }
    ensures accepted { (m : Module) (j : ℕ) → IsPlainAccepted m → slice_get m.functions j ≡ Some function → IsFreeLabel label function → HasRoom m function → IfOk result (λ made. IsPlainAccepted (with_function m j made)) }
{
    split_behaves();
    split_is_accepted();
    let plan = split_plan(alloc, block, position, label)?;
    let made = insert_into_function(alloc, &plan, function)?;
    Ok(made)
}

fn split_plan(
    alloc: Global,
    block: usize,
    position: usize,
    label: Name,
) -> Result<FunctionPlan, NoMemory>
    ensures { IfOk result (λ plan. plan ≡ split_plan block position label) }
{
    let last = split_block(alloc, position, label)?;
    Ok(FunctionPlan {
        symbol: Name::default(),
        hash: 0,
        counters: 0,
        blocks: Seq::of(blocks_before(alloc, block, last)?),
    })
}

fn split_block(alloc: Global, position: usize, label: Name) -> Result<BlockPlan, NoMemory>
    ensures { IfOk result (λ plan. plan ≡ split_block position label) }
{
    let new = NewBlock {
        label,
        counter: None,
    };
    Ok(BlockPlan {
        head: None,
        watches: Seq::new(alloc),
        tail: None,
        edges: Seq::of(edges_before(alloc, position, new)?),
    })
}

fn nothing(alloc: Global) -> BlockPlan
    ensures { result ≡ no_block_plan }
{
    BlockPlan {
        head: None,
        watches: Seq::new(alloc),
        tail: None,
        edges: Seq::new(alloc),
    }
}

// A plan behind so many that put nothing into their blocks.
fn blocks_before(alloc: Global, count: usize, last: BlockPlan) -> Result<Vec<BlockPlan>, NoMemory>
    ensures { IfOk result (λ plans. plans.items ≡ at_place no_block_plan count last) }
{
    let mut plans = Vec::new(alloc);
    for done in 0..count {
        plans.push(nothing(alloc))?;
    }
    plans.push(last)?;
    Ok(plans)
}

// A new block behind so many positions without one.
fn edges_before(
    alloc: Global,
    count: usize,
    new: NewBlock,
) -> Result<Vec<Option<NewBlock>>, NoMemory>
    ensures { IfOk result (λ edges. edges.items ≡ at_place None count (Some new)) }
{
    let mut edges = Vec::new(alloc);
    for done in 0..count {
        edges.push(None)?;
    }
    edges.push(Some(new))?;
    Ok(edges)
}
