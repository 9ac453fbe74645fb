// The names of one function, found without a scan.
ghost use Rattle.std.specs.Prelude.{◌≡◌, List, [], ◌++◌, ◌∷◌, IfOk, OnOk};
ghost use Rattle.spec_lists.specs.Each.{each};
ghost use Rattle.ir_tree.specs.FunctionNames.{indexed, IndexesEntries, IsIndexOf, IsFresh, candidate};
ghost use Rattle.ir_tree.specs.Locals.{Entry, param, block_locals, result_at, local};

use crate::firsts::put_first;
use crate::locals::{Local, LocalKind};
use crate::name::Name;
use crate::types::{Block, Function, Instr, Ty};
use indexmap::IndexMap;
use itoa::Buffer;
use pgo_base::NoMemory;
use std::alloc::Global;

/// The parameters, labels and results of one function by their names. Of equal names the first in text order counts.
#[derive(Drop)]
pub struct FunctionIndex {
    locals: IndexMap<Name, Local>,
}

impl FunctionIndex {
    /// The index of a function's names. A declared function has none.
    pub fn of(alloc: Global, function: &Function) -> Result<FunctionIndex, NoMemory>
        ensures { IfOk result (λ index. IsIndexOf index function.now) }
    {
        let mut index = FunctionIndex::new(alloc);
        if function.blocks.as_slice().is_empty() {
            return Ok(index);
        }
        index.add_params(alloc, function.params.as_slice())?;
        index.add_blocks(alloc, function.blocks.as_slice())?;
        Ok(index)
    }

    fn new(alloc: Global) -> FunctionIndex
        ensures { IndexesEntries result [] }
    {
        FunctionIndex {
            locals: IndexMap::new(alloc),
        }
    }

    /// What a name stands for, None exactly where the function doesn't have it. Takes no memory.
    pub fn find(&self, name: &[u8]) -> Option<Local>
        ensures { result ≡ indexed self.now name.now }
    {
        self.locals.get(name).copied()
    }

    /// The first name that the function doesn't have among the hint, the hint with `.1`, with `.2` and so on. Each try is
    /// one look-up.
    pub fn fresh(&self, alloc: Global, hint: &[u8]) -> Result<Name, NoMemory>
        ensures { IfOk result (λ name. IsFresh self.now hint.now name) }
    {
        for tries in 0..u64::MAX {
            let name = candidate(alloc, hint, tries)?;
            if self.find(name.bytes()).is_none() {
                return Ok(name);
            }
        }
        // No index has so many names.
        Err(NoMemory)
    }

    // Puts a name behind those of the index. A name that it has already keeps what it stands for.
    fn add(&mut self, alloc: Global, name: &Name, local: Local) -> Result<(), NoMemory>
        ensures { (es : List Entry) → IndexesEntries self.old es → OnOk result (IndexesEntries self.new (es ++ (name.now, local) ∷ [])) }
    {
        put_first(&mut self.locals, name.copy(alloc)?, local)?;
        Ok(())
    }

    fn add_params(&mut self, alloc: Global, params: &[(Ty, Name)]) -> Result<(), NoMemory>
        ensures { (es : List Entry) → IndexesEntries self.old es → OnOk result (IndexesEntries self.new (es ++ each param 0 params.now)) }
    {
        for (i, typed) in params.iter().enumerate() {
            self.add_param(alloc, i, typed)?;
        }
        Ok(())
    }

    fn add_param(&mut self, alloc: Global, i: usize, typed: &(Ty, Name)) -> Result<(), NoMemory>
        ensures { (es : List Entry) → IndexesEntries self.old es → OnOk result (IndexesEntries self.new (es ++ param i typed.now)) }
    {
        let local = Local {
            kind: LocalKind::Param(typed.0),
            block: 0,
            item: i,
        };
        self.add(alloc, &typed.1, local)
    }

    fn add_blocks(&mut self, alloc: Global, blocks: &[Block]) -> Result<(), NoMemory>
        ensures { (es : List Entry) → IndexesEntries self.old es → OnOk result (IndexesEntries self.new (es ++ each block_locals 0 blocks.now)) }
    {
        for (b, block) in blocks.iter().enumerate() {
            self.add_block(alloc, b, block)?;
        }
        Ok(())
    }

    fn add_block(&mut self, alloc: Global, b: usize, block: &Block) -> Result<(), NoMemory>
        ensures { (es : List Entry) → IndexesEntries self.old es → OnOk result (IndexesEntries self.new (es ++ block_locals b block.now)) }
    {
        let label = Local {
            kind: LocalKind::Label,
            block: b,
            item: 0,
        };
        self.add(alloc, &block.label, label)?;
        self.add_results(alloc, b, block.instrs.as_slice())
    }

    fn add_results(&mut self, alloc: Global, b: usize, instrs: &[Instr]) -> Result<(), NoMemory>
        ensures { (es : List Entry) → IndexesEntries self.old es → OnOk result (IndexesEntries self.new (es ++ each (result_at b) 0 instrs.now)) }
    {
        for (i, instr) in instrs.iter().enumerate() {
            self.add_result(alloc, b, i, instr)?;
        }
        Ok(())
    }

    fn add_result(
        &mut self,
        alloc: Global,
        b: usize,
        i: usize,
        instr: &Instr,
    ) -> Result<(), NoMemory>
        ensures { (es : List Entry) → IndexesEntries self.old es → OnOk result (IndexesEntries self.new (es ++ result_at b i instr.now)) }
    {
        match instr.result() {
            Some((name, ret)) => {
                let local = Local {
                    kind: LocalKind::Result(ret),
                    block: b,
                    item: i,
                };
                self.add(alloc, name, local)
            }
            None => Ok(()),
        }
    }
}

// The name that is tried for a hint after so many others.
fn candidate(alloc: Global, hint: &[u8], tries: u64) -> Result<Name, NoMemory>
    ensures { IfOk result (λ name. name ≡ candidate hint.now tries) }
{
    if tries == 0 {
        return Name::of(alloc, hint);
    }
    let mut buffer = Buffer::new();
    let mut bytes = Vec::from_slice(alloc, hint)?;
    bytes.push(b'.')?;
    bytes.extend_from_slice(buffer.format(tries).as_bytes())?;
    Name::of(alloc, bytes.as_slice())
}
