// The reachable blocks as nodes, numbered from 1 in text order.
ghost use Rattle.std.specs.Prelude.{◌≡◌, ◌<◌, length, IfOk};
ghost use Rattle.ir_tree.specs.Edges.{numbers, marked_from};

use pgo_base::NoMemory;
use std::alloc::Global;

// The number of each block's node, which at a block without a mark is that of the next node.
pub(crate) fn numbers_of(alloc: Global, marks: &[bool]) -> Result<Vec<u32>, NoMemory>
    requires { length marks.now < 4294967295 }
    ensures { IfOk result (λ nodes. nodes.items ≡ numbers 1 marks.now) }
{
    let mut nodes = Vec::with_capacity(alloc, marks.len())?;
    let mut next = 1u32;
    for marked in marks {
        nodes.push(next)?;
        if *marked {
            next += 1;
        }
    }
    Ok(nodes)
}

// The blocks that have a mark, in order.
pub(crate) fn marked_blocks(alloc: Global, marks: &[bool]) -> Result<Vec<u32>, NoMemory>
    requires { length marks.now < 4294967295 }
    ensures { IfOk result (λ blocks. blocks.items ≡ marked_from 0 marks.now) }
{
    let mut blocks = Vec::new(alloc);
    for (block, reached) in marks.iter().enumerate() {
        if *reached {
            blocks.push(block as u32)?;
        }
    }
    Ok(blocks)
}
