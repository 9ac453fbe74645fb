// The first item that reads what some walk to it doesn't assign.
ghost use Rattle.std.specs.Prelude.{◌≡◌, ◌<◌, length, map, position, All, IfOk};
ghost use Rattle.definite_assignment.specs.Uses.{is_exposed};
ghost use Rattle.ir_assigned.specs.Exposed.{spot_at, use_of};
ghost use Rattle.ir_assigned.specs.Unready.{unready};
ghost use Rattle.ir_rules.specs.Resolved.{IsResolved};
ghost use Rattle.ir_tree.specs.Edges.{rows};
ghost use Rattle.ir_tree.specs.FunctionNames.{IsIndexOf};
ghost use Rattle.ir_tree.specs.Reach.{AreRows};
ghost use Rattle.spec_lists.specs.Each.{first_of};

use crate::reads::{Read, push_blocks};
use block_search::reached_are_marks;
use cfg_edges::rows_of;
use definite_assignment::{Use, first_exposed};
use ir_rules::look_ups_tell;
use ir_tree::{Block, Function, FunctionIndex};
use pgo_base::NoMemory;
use std::alloc::Global;

/// The first item that reads a register which isn't assigned on every walk from the entry to it, by its block and its item in it.
/// A phi reads its values at the ends of the blocks that its entries name. Registers are looked up once.
pub fn first_unready(
    alloc: Global,
    known: &FunctionIndex,
    f: &Function,
) -> Result<Option<(usize, usize)>, NoMemory>
    requires known { IsIndexOf known.now f.now }
    requires resolved { IsResolved f.now }
    ensures { IfOk result (λ found. found ≡ first_of (unready f.now)) }
{
    look_ups_tell();
    let blocks = f.blocks.as_slice();
    let mut reads = Vec::new(alloc);
    push_blocks(known, blocks, &mut reads)?;
    let uses = uses_of(alloc, reads.as_slice())?;
    let found = first_use(alloc, blocks, uses.as_slice())?;
    Ok(spot_of(reads.as_slice(), found))
}

// The first of the uses that some walk reaches without its assignment. Where walks decide nothing the graph is not made.
fn first_use(alloc: Global, blocks: &[Block], uses: &[Use]) -> Result<Option<usize>, NoMemory>
    requires few { length blocks.now < 4294967296 }
    requires graph { AreRows (rows blocks.now) }
    requires givers { All (λ u. u.giver < length (rows blocks.now)) uses.now }
    requires places { All (λ u. u.at < length (rows blocks.now)) uses.now }
    ensures { IfOk result (λ found. found ≡ position (is_exposed (rows blocks.now)) uses.now) }
{
    if uses.is_empty() {
        return Ok(None);
    }
    let graph = rows_of(alloc, blocks)?;
    first_exposed(alloc, &graph, uses)
}

fn uses_of(alloc: Global, reads: &[Read]) -> Result<Vec<Use>, NoMemory>
    ensures { IfOk result (λ uses. uses.items ≡ map use_of reads.now) }
{
    let mut uses = Vec::with_capacity(alloc, reads.len())?;
    for read in reads {
        uses.push(Use {
            giver: read.giver,
            at: read.at,
        })?;
    }
    Ok(uses)
}

fn spot_of(reads: &[Read], place: Option<usize>) -> Option<(usize, usize)>
    ensures { result ≡ spot_at reads.now place }
{
    match place {
        Some(u) => match reads.get(u) {
            Some(read) => Some((read.block, read.item)),
            None => None,
        },
        None => None,
    }
}
