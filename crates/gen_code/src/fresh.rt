// Names that a function doesn't have yet.
ghost use Rattle.std.specs.Prelude.{◌≡◌, ◌^◌, ◌<◌, ◌++◌, suc, length, decimal, IfOk};
ghost use Rattle.gen_plan.specs.Fresh as spec;
ghost use Rattle.ir_tree.specs.FunctionNames.{IsIndexOf};
ghost use Rattle.ir_tree.specs.Locals.{locals};

use ir_tree::{Function, FunctionIndex, Name};
use itoa::Buffer;
use pgo_base::NoMemory;
use std::alloc::Global;

// The names of a function, whose number fits 64 bits.
#[derive(Drop)]
pub(crate) struct Names<'a> {
    function: &'a Function,
    index: FunctionIndex,
    ghost index_is: { IsIndexOf index function.now },
    ghost few: { suc (length (locals function.now)) < 2 ^ 64 },
}

impl<'a> Names<'a> {
    pub(crate) fn of(alloc: Global, function: &'a Function) -> Result<Names<'a>, NoMemory>
        requires { suc (length (locals function.now)) < 2 ^ 64 }
        ensures { IfOk result (λ names. names.function.now ≡ function.now) }
    {
        let index = FunctionIndex::of(alloc, function)?;
        Ok(Names { function, index })
    }

    // The label of the new block on an edge.
    pub(crate) fn of_edge(&self, alloc: Global, edge: u32) -> Result<Name, NoMemory>
        ensures { IfOk result (λ name. name ≡ spec.fresh self.now.function.now (spec.edge_hint edge)) }
    {
        self.fresh(alloc, b"pgo.edge.", edge)
    }

    // The register that holds the condition of a select.
    pub(crate) fn of_select(&self, alloc: Global, select: u32) -> Result<Name, NoMemory>
        ensures { IfOk result (λ name. name ≡ spec.fresh self.now.function.now (spec.select_hint select)) }
    {
        self.fresh(alloc, b"pgo.select.", select)
    }

    // The register that holds the target of a call.
    pub(crate) fn of_target(&self, alloc: Global, site: u32) -> Result<Name, NoMemory>
        ensures { IfOk result (λ name. name ≡ spec.fresh self.now.function.now (spec.target_hint site)) }
    {
        self.fresh(alloc, b"pgo.target.", site)
    }

    // The fresh name whose hint is a word and a number.
    fn fresh(&self, alloc: Global, word: &[u8], number: u32) -> Result<Name, NoMemory>
        ensures { IfOk result (λ name. name ≡ spec.fresh self.now.function.now (word.now ++ decimal number)) }
    {
        let mut buffer = Buffer::new();
        let mut hint = Vec::from_slice(alloc, word)?;
        hint.extend_from_slice(buffer.format(number).as_bytes())?;
        self.index.fresh(alloc, hint.as_slice())
    }
}
