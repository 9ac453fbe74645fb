// The units of a module that counts.
ghost use Rattle.std.specs.Prelude.{◌≡◌, ◌≤◌, ℕ, List, ◌++◌, ◌∷◌, [], true, find, IfOk, OnOk};
ghost use Rattle.std.specs.Option.{option_copied, option_map};
ghost use Rattle.ir_rules.specs.Lists.{Among};
ghost use Rattle.ir_tree.specs.declared.types.Global1 as spec_tree;
ghost use Rattle.lower_units.specs.Alone.{first_alone, lacks_counters, table_globals};
ghost use Rattle.lower_units.specs.Faults.{refused_for};
ghost use Rattle.lower_units.specs.Shown as shown;
ghost use Rattle.lower_units.specs.Table.{told_at};
ghost use Rattle.lower_units.specs.Told.{all_told};
ghost use Rattle.lowering.specs.Asked.{all_asked};
ghost use Rattle.lowering.specs.Refusals as spec;
ghost use Rattle.lowering.specs.Units.{names_used, new_globals, sites_told};

use crate::faults::{Test, first_fault};
use crate::globals::push_globals;
use crate::held::{name_held, name_of_unit};
use crate::names::is_unit_name;
use crate::refusal::Refusal;
use crate::table::Table;
use ir_tree::{Global1, Module, Seq};
use pgo_base::NoMemory;
use std::alloc::Global;

/// What the calls of a module's intrinsics tell of its units, in a table by the globals that name them.
#[derive(Drop)]
pub struct Units<'a> {
    module: &'a Module,
    table: Table,
    ghost told: { (q : List ℕ) → told_at table q ≡ all_told q (all_asked «module».now) },
}

fn refused_for(alloc: Global, name: &[u8], test: Test) -> Result<Refusal, NoMemory>
    ensures { IfOk result (λ refusal. shown.refusal refusal ≡ refused_for name.now test) }
{
    let name = Seq::of(Vec::from_slice(alloc, name)?);
    Ok(match test {
        Test::Hash { first, other } => Refusal::HashDiffers { name, first, other },
        Test::Count { first, other } => Refusal::CountDiffers { name, first, other },
        Test::Index { index, count } => Refusal::IndexPast { name, index, count },
    })
}

// Whether value notes alone name the unit of a global.
fn lacks_counters(table: &Table, g: &Global1) -> bool
    ensures { result ≡ lacks_counters (told_at table.now) g.now }
{
    if !is_unit_name(g.name.bytes()) {
        return false;
    }
    match table.find(g.name.bytes()) {
        Some(told) => told.counters.is_none(),
        None => false,
    }
}

impl<'a> Units<'a> {
    /// Gathers what the calls tell, each in turn. It refuses for want of memory alone.
    pub fn of(alloc: Global, module: &'a Module) -> Result<Units<'a>, NoMemory>
        ensures { IfOk result (λ made. made.«module».now ≡ «module».now) }
    {
        let table = Table::of(alloc, module.functions.as_slice())?;
        Ok(Units { module, table })
    }

    // The first global of a unit that value notes alone name.
    fn first_alone(&self) -> Option<&Global1>
        ensures { option_copied result ≡ find (lacks_counters (told_at self.now.table)) self.now.«module».now.globals }
    {
        let table = &self.table;
        self.module
            .globals
            .as_slice()
            .iter()
            .find(|g| lacks_counters(table, g))
    }

    /// Why the module is not lowered, None where it is: the first call that fails a test, else the first unit without an increment.
    /// It takes memory for the name of the unit alone.
    pub fn refusal(&self, alloc: Global) -> Result<Option<Refusal>, NoMemory>
        ensures { IfOk result (λ refusal. option_map shown.refusal refusal ≡ spec.refusal self.now.«module».now) }
    {
        let globals = self.module.globals.as_slice();
        match first_fault(&self.table, self.module.functions.as_slice()) {
            Some((symbol, test)) => {
                let name = name_of_unit(globals, symbol.bytes());
                Ok(Some(refused_for(alloc, name, test)?))
            }
            None => self.refusal_alone(alloc),
        }
    }

    fn refusal_alone(&self, alloc: Global) -> Result<Option<Refusal>, NoMemory>
        ensures { IfOk result (λ refusal. option_map shown.refusal refusal ≡ first_alone (told_at self.now.table) self.now.«module».now.globals) }
    {
        match self.first_alone() {
            Some(g) => Ok(Some(Refusal::NoIncrement {
                name: Seq::of(Vec::from_slice(alloc, name_held(g))?),
            })),
            None => Ok(None),
        }
    }

    fn push_unit(&self, alloc: Global, g: &Global1, made: &mut Vec<Global1>) -> Result<(), NoMemory>
        ensures { OnOk result (made.new.items ≡ made.old.items ++ table_globals (told_at self.now.table) (g.now ∷ [])) }
    {
        if !is_unit_name(g.name.bytes()) {
            return Ok(());
        }
        match self.table.find(g.name.bytes()) {
            Some(told) => push_globals(alloc, g, told, made),
            None => Ok(()),
        }
    }

    /// The globals of the counters and data of each unit that is used, in the order of the globals that name them. It refuses for
    /// want of memory alone.
    pub fn globals(&self, alloc: Global) -> Result<Vec<Global1>, NoMemory>
        requires few { (g : spec_tree.Global1) → Among g self.now.«module».now.globals → names_used (all_asked self.now.«module».now) g ≡ true → sites_told g.name (all_asked self.now.«module».now) ≤ 65536 }
        ensures { IfOk result (λ made. made.items ≡ new_globals (all_asked self.now.«module».now) self.now.«module».now.globals) }
    {
        let mut made = Vec::new(alloc);
        for g in self.module.globals.as_slice() {
            self.push_unit(alloc, g, &mut made)?;
        }
        Ok(made)
    }
}
