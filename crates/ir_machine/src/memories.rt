// The memory in which a call begins.
ghost use Rattle.std.specs.Prelude.{◌≡◌, IfOk};
ghost use Rattle.ir_code.specs.Images.{memory_of};

use ir_code::GlobalImage;
use ir_memory::Memory;
use pgo_base::NoMemory;
use std::alloc::Global;

/// A memory with an object for each global variable. `NoMemory` comes also where these have more cells than a memory
/// may, as those of no accepted module do.
pub fn first_memory(alloc: Global, images: &[GlobalImage]) -> Result<Memory, NoMemory>
    ensures { IfOk result (λ memory. memory ≡ memory_of images.now) }
{
    let mut memory = Memory::new(alloc);
    for one in images {
        if memory.next() == u64::MAX {
            return Err(NoMemory);
        }
        match memory.make_of(&one.cells, one.constant) {
            Ok(()) => {}
            Err(_) => return Err(NoMemory),
        }
    }
    Ok(memory)
}
