// The code of a module.
ghost use Rattle.std.specs.Prelude.{◌≡◌, ◌^◌, ◌<◌, ◌≤◌, IfOk, IsErrOf};
ghost use Rattle.ir_tree.specs.Functions.{numbered};
ghost use Rattle.ir_code.specs.Images.{module_images};
ghost use Rattle.ir_code.specs.Resolved.{module_code};
ghost use Rattle.ir_code.specs.Units.{counters_of_all, sites_of_all, tallies_of};
ghost use Rattle.ir_rules.specs.Kinds.{kind_of};
ghost use Rattle.ir_rules.specs.declared.place.Kind.TheVariants as kinds;
ghost use Rattle.ir_machine.specs.Slots.{edges_of_all, first_edge_of, slot_of, HasEdge, all_slots};

use crate::slots::{FunctionSlots, Numbering, entry_in, number_functions, slot_in_all};
use ir_check::{Checked, Kind};
use ir_code::{
    FunctionCode, GlobalImage, Symbols, counter_total, global_images, module_symbols,
    resolve_functions, site_total,
};
use ir_model::Tally;
use ir_tree::{Module, Seq};
use pgo_base::NoMemory;
use std::alloc::Global;
use std::marker::Model;
use thiserror::Error;

/// A module that is ready to run: its names are resolved to numbers. It borrows the module, and
/// contracts see it as the module.
#[derive(Drop)]
pub struct Code<'a> {
    module: &'a Module,
    functions: Seq<FunctionCode>,
    images: Seq<GlobalImage>,
    tallies: Seq<Tally>,
    counters: u32,
    sites: u32,
    numbering: Numbering,
}

impl<'a> Model for Code<'a> {
    ghost use Rattle.std.specs.Prelude.{◌≡◌};
    ghost use Rattle.ir_tree.specs.Functions.{numbered};
    ghost use Rattle.ir_tree.specs.declared.types.Module.{Module};
    ghost use Rattle.ir_code.specs.Images.{module_images};
    ghost use Rattle.ir_code.specs.Resolved.{module_code};
    ghost use Rattle.ir_code.specs.Units.{counters_of_all, sites_of_all, tallies_of};
    ghost use Rattle.ir_machine.specs.Slots.{all_slots, edges_of_all};

    ghost Value = { Module };

    ghost use Rattle.ir_tree.specs.contracts.types.Module.{the_row};

    ghost coded = { the_row.coded };

    ghost view = { λ c. c.module.now };

    ghost invariant = { λ c. (c.functions ≡ module_code c.module.now) × (c.images ≡ module_images c.module.now) × (c.tallies ≡ tallies_of c.module.now) × (c.counters ≡ counters_of_all (tallies_of c.module.now)) × (c.sites ≡ sites_of_all (tallies_of c.module.now)) × (c.numbering.functions ≡ all_slots 0 (numbered c.module.now.functions)) × (c.numbering.total ≡ edges_of_all c.module.now) };
}

impl<'a> Code<'a> {
    /// What the module counts, one tally for each unit. A module that isn't lowered counts nothing.
    pub fn tallies(&self) -> &[Tally]
        ensures { result.now ≡ tallies_of self.now }
    {
        self.tallies.as_slice()
    }

    /// How many counters the tallies have in all, which is how many a probe of `run_call` needs.
    pub fn counters(&self) -> u32
        ensures { result ≡ counters_of_all (tallies_of self.now) }
    {
        self.counters
    }

    /// How many sites the tallies have in all, which is how many a probe of `run_call` needs.
    pub fn sites(&self) -> u32
        ensures { result ≡ sites_of_all (tallies_of self.now) }
    {
        self.sites
    }

    /// There are fewer than 2^32 counters and sites, so that a probe that keeps nothing has room for them. Takes no memory.
    pub fn has_few_marks(&self)
        ensures counters { counters_of_all (tallies_of self.now) ≤ 2 ^ 32 }
        ensures sites { sites_of_all (tallies_of self.now) ≤ 2 ^ 32 }
    {
        let _counters = self.counters();
        let _sites = self.sites();
    }

    /// How many edges the functions have in all: each defined one its entry and those out of its
    /// blocks, one for each successor position, or one where a block has no successor.
    pub fn edge_total(&self) -> u32
        ensures { result ≡ edges_of_all self.now }
    {
        self.numbering.total
    }

    /// The number of edges of all functions before this one.
    pub fn first_edge(&self, function: u32) -> u32
        ensures { result ≡ first_edge_of self.now function }
    {
        entry_in(self.slots(), function as usize, self.edge_total())
    }

    /// The number of an edge among those of all functions: the entry of a function, or the edge out of
    /// the block at this place by the successor at this position.
    pub fn slot(&self, function: u32, block: Option<u32>, position: u32) -> usize
        requires edge { HasEdge self.now function block position }
        ensures place { result ≡ slot_of self.now function block position }
        ensures inside { result < edges_of_all self.now }
    {
        slot_in_all(self.slots(), function as usize, block, position)
    }

    /// The slots of each function, by its number.
    pub(crate) fn slots(&self) -> &[FunctionSlots]
        ensures { result.now ≡ all_slots 0 (numbered self.now.functions) }
    {
        self.numbering.functions.as_slice()
    }

    /// The code of each function, by its number.
    pub(crate) fn functions(&self) -> &[FunctionCode]
        ensures { result.now ≡ module_code self.now }
    {
        self.functions.as_slice()
    }

    /// What the global variables hold at first.
    pub(crate) fn images(&self) -> &[GlobalImage]
        ensures { result.now ≡ module_images self.now }
    {
        self.images.as_slice()
    }
}

/// Why an accepted module has no code.
#[derive(Clone, Copy, Debug, PartialEq, Eq, Drop, Error)]
pub enum ResolveError {
    /// The module still has calls of `llvm.instrprof` intrinsics, which are to be lowered first.
    #[error("wrong kind")]
    WrongKind,
    #[error("out of memory")]
    NoMemory,
}

/// The code of an accepted module. `WrongKind` comes exactly where its kind is Counted.
pub fn resolve<'a>(alloc: Global, module: &'a Checked) -> Result<Code<'a>, ResolveError>
    ensures code { IfOk result (λ code. code ≡ module.now) }
    ensures kind { IfOk result (λ _. kind_of module.now.functions ≡ kinds.Counted → ⊥) }
    ensures wrong_kind { IsErrOf result ResolveError.WrongKind → kind_of module.now.functions ≡ kinds.Counted }
{
    if module.kind() == Kind::Counted {
        return Err(ResolveError::WrongKind);
    }
    match resolve_module(alloc, module.module()) {
        Ok(code) => Ok(code),
        Err(_) => Err(ResolveError::NoMemory),
    }
}

/// Resolves the names of a module. Where its functions have 2^32 edges or more, which no accepted
/// module has, the answer is `NoMemory`.
pub(crate) fn resolve_module<'a>(alloc: Global, module: &'a Module) -> Result<Code<'a>, NoMemory>
    ensures { IfOk result (λ code. code ≡ module.now) }
{
    let symbols = module_symbols(alloc, module)?;
    let functions = resolve_functions(alloc, &symbols, module.functions.as_slice())?;
    let images = global_images(alloc, &symbols, module.globals.as_slice())?;
    let Symbols { tallies, .. } = symbols;
    let numbering = number_functions(alloc, module.functions.as_slice())?;
    Ok(Code {
        module,
        functions: Seq::of(functions),
        images: Seq::of(images),
        counters: counter_total(tallies.as_slice())?,
        sites: site_total(tallies.as_slice())?,
        tallies,
        numbering,
    })
}
