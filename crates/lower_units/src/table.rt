// What calls tell of each unit, by the global that names it.
ghost use Rattle.std.specs.Prelude.{◌≡◌, ℕ, List, None, Some, cond, filter_map, IfOk, OnOk};
ghost use Rattle.std.specs.Option.{option_copied};
ghost use Rattle.lower_units.specs.Shown as shown;
ghost use Rattle.lower_units.specs.Table.{told_at};
ghost use Rattle.lower_units.specs.Told.{more_told, some_told, told_after};
ghost use Rattle.lowering.specs.Asked as spec;
ghost use Rattle.lowering.specs.Units.{is_asked_of};

use crate::asked::{Asked, asked_of};
use crate::told::Told;
use indexmap::IndexMap;
use ir_tree::{Block, Function, Instr, Name};
use pgo_base::NoMemory;
use std::alloc::Global;

#[derive(Drop)]
pub(crate) struct Table {
    told: IndexMap<Name, Told>,
}

impl Table {
    fn new(alloc: Global) -> Table
        ensures { (q : List ℕ) → told_at result q ≡ None }
    {
        Table {
            told: IndexMap::new(alloc),
        }
    }

    // What is told of a unit, None where no call names it.
    pub(crate) fn find(&self, symbol: &[u8]) -> Option<&Told>
        ensures { option_copied result ≡ told_at self.now symbol.now }
    {
        self.told.get(symbol)
    }

    // What one call tells.
    fn add(&mut self, alloc: Global, asked: &Asked<'_>) -> Result<(), NoMemory>
        ensures { OnOk result ((q : List ℕ) → told_at self.new q ≡ cond (is_asked_of q (shown.asked asked.now)) (Some (more_told (told_at self.old q) (shown.asked asked.now))) (told_at self.old q)) }
    {
        let symbol = asked.symbol();
        match self.told.get_mut(symbol.bytes()) {
            Some(told) => *told = told.with(asked),
            None => {
                self.told.insert(symbol.copy(alloc)?, Told::first(asked))?;
            }
        }
        Ok(())
    }

    // What an instruction tells, if it asks for something.
    fn add_instr(&mut self, alloc: Global, instr: &Instr) -> Result<(), NoMemory>
        ensures { OnOk result ((q : List ℕ) → told_at self.new q ≡ some_told q (told_at self.old q) (spec.asked instr.now)) }
    {
        match asked_of(instr) {
            Some(asked) => self.add(alloc, &asked),
            None => Ok(()),
        }
    }

    fn add_instrs(&mut self, alloc: Global, instrs: &[Instr]) -> Result<(), NoMemory>
        ensures { OnOk result ((q : List ℕ) → told_at self.new q ≡ told_after q (told_at self.old q) (filter_map spec.asked instrs.now)) }
    {
        for instr in instrs {
            self.add_instr(alloc, instr)?;
        }
        Ok(())
    }

    fn add_blocks(&mut self, alloc: Global, blocks: &[Block]) -> Result<(), NoMemory>
        ensures { OnOk result ((q : List ℕ) → told_at self.new q ≡ told_after q (told_at self.old q) (spec.asked_in blocks.now)) }
    {
        for block in blocks {
            self.add_instrs(alloc, block.instrs.as_slice())?;
        }
        Ok(())
    }

    // What the calls of these functions tell.
    pub(crate) fn of(alloc: Global, functions: &[Function]) -> Result<Table, NoMemory>
        ensures { IfOk result (λ made. (q : List ℕ) → told_at made q ≡ told_after q None (spec.asked_by_all functions.now)) }
    {
        let mut made = Table::new(alloc);
        for function in functions {
            made.add_blocks(alloc, function.blocks.as_slice())?;
        }
        Ok(made)
    }
}
