// The globals of a profile fit one another: the name of a unit, its counters, and its data.
ghost use Rattle.std.specs.Prelude.{◌≡◌, ◌≤◌, ◌+◌, ◌&&◌, ℕ, true, List, ◌++◌, [], Some, codes, drop, take, length, find, slice_get, IfOk};
ghost use Rattle.std.specs.List.{list_any};
ghost use Rattle.std.specs.Option.{option_copied};
ghost use Rattle.check_names.specs.Scene.{IsScene};
ghost use Rattle.check_names.specs.Seen.{HasSeen};
ghost use Rattle.check_names.specs.Told.{tells};
ghost use Rattle.ir_rules.specs.Initialisers as spec;
ghost use Rattle.ir_rules.specs.Kinds as kinds;
ghost use Rattle.ir_rules.specs.Scopes.{symbols};
ghost use Rattle.ir_rules.specs.Units as held;
ghost use Rattle.ir_tree.specs.Names.{Indexes, same};
ghost use Rattle.ir_tree.specs.Operands.{listed};

use crate::kinds::{is_unit_counters, is_unit_data, is_unit_name};
use crate::records::{has_hash, is_counter_total, is_record_name};
use crate::seen::Seen;
use crate::unit::{counters_of, text_of, told};
use ir_rules::Kind;
use ir_tree::{Global1, Index, Module};
use pgo_base::NoMemory;
use std::alloc::Global;

/// Whether global n keeps what is said of the globals of a profile. The names of units before it are seen, and so is its own then.
pub(crate) fn is_unit_well(
    alloc: Global,
    kind: Kind,
    index: &Index,
    module: &Module,
    texts: &mut Seen,
    n: usize,
    g: &Global1,
) -> Result<bool, NoMemory>
    requires scene { IsScene kind index.now «module».now }
    requires few { length «module».now.globals ≤ 262144 }
    requires place { slice_get «module».now.globals n ≡ Some g.now }
    requires seen { HasSeen texts.old (spec.unit_texts (take n «module».now.globals)) }
    ensures kept { IfOk result (λ kept. kept ≡ spec.is_unit_well «module».now n g.now) }
    ensures seen { IfOk result (λ kept. kept ≡ true → HasSeen texts.new (spec.unit_texts (take (n + 1) «module».now.globals))) }
{
    let name = g.name.bytes();
    if is_unit_name(name) {
        return names_unit_well(alloc, texts, g);
    }
    if is_unit_counters(name) {
        return holds_counters_well(alloc, kind, index, module, g);
    }
    if is_unit_data(name) {
        return holds_data_well(alloc, kind, index, module, g);
    }
    Ok(true)
}

fn names_unit_well(alloc: Global, texts: &mut Seen, g: &Global1) -> Result<bool, NoMemory>
    requires room { texts.old.count ≤ 2101248 }
    ensures kept { (before : List (List ℕ)) → HasSeen texts.old before → IfOk result (λ kept. kept ≡ spec.is_new_text before (held.text_of g.now)) }
    ensures seen { (before : List (List ℕ)) → HasSeen texts.old before → IfOk result (λ kept. kept ≡ true → HasSeen texts.new (before ++ listed (held.text_of g.now))) }
{
    match text_of(g) {
        Some(text) => {
            if !is_record_name(text) {
                return Ok(false);
            }
            texts.add(alloc, text)
        }
        None => Ok(false),
    }
}

// The unit that a global belongs to, behind the front of its name.
fn unit_of(name: &[u8]) -> &[u8]
    ensures { result.now ≡ kinds.unit_of name.now }
{
    if name.len() < 8 { &[] } else { &name[8..] }
}

fn joined(alloc: Global, front: &[u8], unit: &[u8]) -> Result<Vec<u8>, NoMemory>
    ensures { IfOk result (λ name. name.items ≡ front.now ++ unit.now) }
{
    let mut name = Vec::from_slice(alloc, front)?;
    name.extend_from_slice(unit)?;
    Ok(name)
}

// The global variable of a name, by its place among all names.
fn find_variable<'a>(index: &Index, module: &'a Module, name: &[u8]) -> Option<&'a Global1>
    requires { Indexes index.now (symbols «module».now) }
    ensures { option_copied result ≡ find (λ g. same name.now g.name) «module».now.globals }
{
    match index.find(name) {
        Some(place) => variable_at(module.globals.as_slice(), place),
        None => None,
    }
}

fn variable_at(globals: &[Global1], place: usize) -> Option<&Global1>
    ensures { option_copied result ≡ slice_get globals.now place }
{
    globals.get(place)
}

// Whether a unit may have so many counters, and its name is there and has the hash.
fn tells_unit(
    alloc: Global,
    kind: Kind,
    index: &Index,
    module: &Module,
    unit: &[u8],
    hash: u64,
    counters: u64,
) -> Result<bool, NoMemory>
    requires { IsScene kind index.now «module».now }
    ensures { IfOk result (λ kept. kept ≡ tells «module».now unit.now hash counters) }
{
    if !is_counter_total(counters) {
        return Ok(false);
    }
    let name = joined(alloc, b"__profn_".as_slice(), unit)?;
    match find_variable(index, module, name.as_slice()) {
        Some(g) => Ok(has_hash(hash, text_of(g))),
        None => Ok(false),
    }
}

fn holds_counters_well(
    alloc: Global,
    kind: Kind,
    index: &Index,
    module: &Module,
    g: &Global1,
) -> Result<bool, NoMemory>
    requires { IsScene kind index.now «module».now }
    ensures { IfOk result (λ kept. kept ≡ spec.holds_counters_well «module».now g.now) }
{
    match counters_of(g) {
        Some(count) => have_data(alloc, kind, index, module, unit_of(g.name.bytes()), count),
        None => Ok(false),
    }
}

// Whether the data of a unit tell so many counters.
fn have_data(
    alloc: Global,
    kind: Kind,
    index: &Index,
    module: &Module,
    unit: &[u8],
    count: u64,
) -> Result<bool, NoMemory>
    requires { IsScene kind index.now «module».now }
    ensures { IfOk result (λ kept. kept ≡ spec.have_data «module».now unit.now (Some count)) }
{
    let name = joined(alloc, b"__profd_".as_slice(), unit)?;
    match find_variable(index, module, name.as_slice()) {
        Some(data) => tell_counters(alloc, kind, index, module, unit, count, data),
        None => Ok(false),
    }
}

fn tell_counters(
    alloc: Global,
    kind: Kind,
    index: &Index,
    module: &Module,
    unit: &[u8],
    count: u64,
    data: &Global1,
) -> Result<bool, NoMemory>
    requires { IsScene kind index.now «module».now }
    ensures { IfOk result (λ kept. kept ≡ spec.tells_counters «module».now unit.now count (held.data_of «data».now)) }
{
    match told(data) {
        Some((hash, counters)) => {
            let tells = tells_unit(alloc, kind, index, module, unit, hash, counters)?;
            Ok(both(tells, counters == count))
        }
        None => Ok(false),
    }
}

fn both(first: bool, second: bool) -> bool
    ensures { result ≡ (first && second) }
{
    first && second
}

fn holds_data_well(
    alloc: Global,
    kind: Kind,
    index: &Index,
    module: &Module,
    g: &Global1,
) -> Result<bool, NoMemory>
    requires { IsScene kind index.now «module».now }
    ensures { IfOk result (λ kept. kept ≡ spec.holds_data_well «module».now g.now) }
{
    match told(g) {
        Some((hash, counters)) => {
            let unit = unit_of(g.name.bytes());
            let tells = tells_unit(alloc, kind, index, module, unit, hash, counters)?;
            let counted = has_counters(alloc, index, module, unit)?;
            Ok(both(tells, counted))
        }
        None => Ok(false),
    }
}

fn has_counters(
    alloc: Global,
    index: &Index,
    module: &Module,
    unit: &[u8],
) -> Result<bool, NoMemory>
    requires { Indexes index.now (symbols «module».now) }
    ensures { IfOk result (λ there. there ≡ list_any (λ c. same (codes "__profc_" ++ unit.now) c.name) «module».now.globals) }
{
    let name = joined(alloc, b"__profc_".as_slice(), unit)?;
    Ok(find_variable(index, module, name.as_slice()).is_some())
}
