// The names of a module, and the units of a profile that it counts in.
ghost use Rattle.std.specs.Prelude.{◌≡◌, ◌+◌, List, [], ◌∷◌, ◌++◌, map, slice_get, unwrap_or, IfOk, OnOk};
ghost use Rattle.ir_tree.specs.Functions.{numbered};
ghost use Rattle.ir_tree.specs.Names.{Indexes};
ghost use Rattle.ir_tree.specs.declared.types.Function.{Function};
ghost use Rattle.ir_tree.specs.declared.types.Global1.{Global1};
ghost use Rattle.ir_model.specs.Values.{objects};
ghost use Rattle.ir_code.specs.Found.{AreSymbols};
ghost use Rattle.ir_code.specs.Names.{AreNumbered};
ghost use Rattle.ir_code.specs.Tallied.{AreTallied};
ghost use Rattle.ir_code.specs.Units as spec;

use crate::images::{begins_with, is_profile_global};
use crate::names::Numbers;
use crate::operands::behind_eight;
use crate::symbols::Symbols;
use ir_model::Tally;
use ir_tree::{Function, Global1, Index, Init, Module, Seq, is_profile_name};
use pgo_base::NoMemory;
use std::alloc::Global;

/// Numbers a function, where it has a number.
fn add_function(alloc: Global, names: &mut Numbers, function: &Function) -> Result<(), NoMemory>
    ensures { (before : List Function) → AreNumbered names.old (map (λ f. f.name) (numbered before)) → OnOk result (AreNumbered names.new (map (λ f. f.name) (numbered (before ++ function.now ∷ [])))) }
{
    if is_profile_name(function.name.bytes()) {
        return Ok(());
    }
    names.add(alloc, &function.name)
}

/// The functions that have a number, by their names.
fn function_index(alloc: Global, functions: &[Function]) -> Result<Index, NoMemory>
    ensures { IfOk result (λ index. Indexes index (map (λ f. f.name) (numbered functions.now))) }
{
    let mut names = Numbers::new(alloc);
    for function in functions {
        add_function(alloc, &mut names, function)?;
    }
    Ok(names.index())
}

/// Numbers a global variable, where it is an object.
fn add_object(alloc: Global, names: &mut Numbers, global: &Global1) -> Result<(), NoMemory>
    ensures { (before : List Global1) → AreNumbered names.old (map (λ g. g.name) (objects before)) → OnOk result (AreNumbered names.new (map (λ g. g.name) (objects (before ++ global.now ∷ [])))) }
{
    if is_profile_global(global.name.bytes()) {
        return Ok(());
    }
    names.add(alloc, &global.name)
}

/// The global variables that are objects, by their names.
fn object_index(alloc: Global, globals: &[Global1]) -> Result<Index, NoMemory>
    ensures { IfOk result (λ index. Indexes index (map (λ g. g.name) (objects globals.now))) }
{
    let mut names = Numbers::new(alloc);
    for global in globals {
        add_object(alloc, &mut names, global)?;
    }
    Ok(names.index())
}

/// All global variables by their names.
fn global_index(alloc: Global, globals: &[Global1]) -> Result<Index, NoMemory>
    ensures { IfOk result (λ index. Indexes index (map (λ g. g.name) globals.now)) }
{
    let mut index = Index::new(alloc);
    for (i, global) in globals.iter().enumerate() {
        index.add(alloc, global.name.bytes(), i)?;
    }
    Ok(index)
}

/// The integer that an initialiser is, else 0.
fn number_of(init: &Init) -> u64
    ensures { result ≡ spec.number_of init.now }
{
    match init {
        Init::Int(number) => *number,
        Init::Null
        | Init::Symbol(_)
        | Init::Zero
        | Init::Bytes(_)
        | Init::List(_)
        | Init::External => 0,
    }
}

/// The integer at a place of a list, 0 where there is none.
fn listed_number(init: &Init, place: usize) -> u64
    ensures { result ≡ unwrap_or (slice_get (spec.numbers_of init.now) place) 0 }
{
    match init {
        Init::List(inits) => match inits.as_slice().get(place) {
            Some(one) => number_of(one),
            None => 0,
        },
        Init::Int(_)
        | Init::Null
        | Init::Symbol(_)
        | Init::Zero
        | Init::Bytes(_)
        | Init::External => 0,
    }
}

/// The number at a place of the data of a unit, 0 where there is none.
fn datum(global: &Global1, place: usize) -> u64
    ensures { result ≡ spec.datum global.now place }
{
    listed_number(&global.init, place)
}

/// The bytes of a text, none of another initialiser.
fn bytes_of(init: &Init) -> &[u8]
    ensures { result.now ≡ spec.bytes_of init.now }
{
    match init {
        Init::Bytes(bytes) => bytes.as_slice(),
        Init::Int(_) | Init::Null | Init::Symbol(_) | Init::Zero | Init::List(_) | Init::External =>
            &[],
    }
}

/// The text of the first global variable of a name, in which names are found by an index.
fn text_named<'a>(index: &Index, globals: &'a [Global1], name: &[u8]) -> &'a [u8]
    requires { Indexes index.now (map (λ g. g.name) globals.now) }
    ensures { result.now ≡ spec.text_named globals.now name.now }
{
    match index.find(name) {
        Some(place) => match globals.get(place) {
            Some(global) => bytes_of(&global.init),
            None => &[],
        },
        None => &[],
    }
}

/// What is counted of a unit with this data, where so many counters and sites come before it.
fn tally(
    alloc: Global,
    index: &Index,
    globals: &[Global1],
    counters: u32,
    sites: u32,
    global: &Global1,
) -> Result<Tally, NoMemory>
    requires { Indexes index.now (map (λ g. g.name) globals.now) }
    ensures { IfOk result (λ t. t ≡ (spec.unit globals.now counters sites global.now).1) }
{
    let mut name = Vec::from_slice(alloc, b"__profn_".as_slice())?;
    name.extend_from_slice(behind_eight(global.name.bytes()))?;
    let text = text_named(index, globals, name.as_slice());
    Ok(Tally {
        name: Seq::of(Vec::from_slice(alloc, text)?),
        hash: datum(global, 1),
        counters: narrow(datum(global, 2))?,
        sites: narrow(datum(global, 3))?,
        first_counter: counters,
        first_site: sites,
    })
}

/// A number as one of 32 bits, which those of an accepted module are.
fn narrow(number: u64) -> Result<u32, NoMemory>
    ensures { IfOk result (λ n. n ≡ number) }
{
    match u32::try_from(number) {
        Ok(number) => Ok(number),
        Err(_) => Err(NoMemory),
    }
}

/// The sum of two numbers of 32 bits, which those of an accepted module have.
fn sum(left: u32, right: u32) -> Result<u32, NoMemory>
    ensures { IfOk result (λ n. n ≡ left + right) }
{
    match left.checked_add(right) {
        Some(sum) => Ok(sum),
        None => Err(NoMemory),
    }
}

/// The units of global variables: their names, what is counted of each, and how many counters and sites they have.
#[derive(Drop)]
pub struct Tallied {
    names: Index,
    tallies: Seq<Tally>,
    counters: u32,
    sites: u32,
}

/// Puts the unit of a global variable behind the others, where it is the data of one.
fn add_unit(
    alloc: Global,
    index: &Index,
    globals: &[Global1],
    global: &Global1,
    tallied: &mut Tallied,
) -> Result<(), NoMemory>
    requires { Indexes index.now (map (λ g. g.name) globals.now) }
    ensures { (before : List Global1) → AreTallied tallied.old globals.now before → OnOk result (AreTallied tallied.new globals.now (before ++ global.now ∷ [])) }
{
    if !begins_with(b"__profd_".as_slice(), global.name.bytes()) {
        return Ok(());
    }
    let one = tally(
        alloc,
        index,
        globals,
        tallied.counters,
        tallied.sites,
        global,
    )?;
    tallied.counters = sum(tallied.counters, one.counters)?;
    tallied.sites = sum(tallied.sites, one.sites)?;
    tallied.names.add(
        alloc,
        behind_eight(global.name.bytes()),
        tallied.tallies.len(),
    )?;
    tallied.tallies.push(one)?;
    Ok(())
}

/// The units of a module, one for each global variable with the data of one.
fn units(alloc: Global, globals: &[Global1]) -> Result<Tallied, NoMemory>
    ensures { IfOk result (λ units. AreTallied units globals.now globals.now) }
{
    let index = global_index(alloc, globals)?;
    let mut units = Tallied {
        names: Index::new(alloc),
        tallies: Seq::new(alloc),
        counters: 0,
        sites: 0,
    };
    for global in globals {
        add_unit(alloc, &index, globals, global, &mut units)?;
    }
    Ok(units)
}

/// What the names of a module stand for.
pub fn module_symbols(alloc: Global, module: &Module) -> Result<Symbols, NoMemory>
    ensures { IfOk result (λ symbols. AreSymbols symbols «module».now) }
{
    let globals = module.globals.as_slice();
    let units = units(alloc, globals)?;
    Ok(Symbols {
        functions: function_index(alloc, module.functions.as_slice())?,
        objects: object_index(alloc, globals)?,
        units: units.names,
        tallies: units.tallies,
    })
}

/// How many counters all units have.
pub fn counter_total(tallies: &[Tally]) -> Result<u32, NoMemory>
    ensures { IfOk result (λ n. n ≡ spec.counters_of_all tallies.now) }
{
    let mut total = 0;
    for tally in tallies {
        total = sum(total, tally.counters)?;
    }
    Ok(total)
}

/// How many sites all units have.
pub fn site_total(tallies: &[Tally]) -> Result<u32, NoMemory>
    ensures { IfOk result (λ n. n ≡ spec.sites_of_all tallies.now) }
{
    let mut total = 0;
    for tally in tallies {
        total = sum(total, tally.sites)?;
    }
    Ok(total)
}
