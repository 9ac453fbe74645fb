// The records of the tallies of a run.
ghost use Rattle.std.specs.Prelude.{◌≡◌, ◌<◌, ◌^◌, All, IfOk, length, map};
ghost use Rattle.prof_text.specs.Record.{value_of, values_of};
ghost use Rattle.run_texts.specs.RunProfile as spec;

use crate::parts::part;
use ir_model::Tally;
use ir_tree::Numbering;
use pgo_base::NoMemory;
use prof_text::{ProfRecord, Target};
use seq::Seq;
use std::alloc::Global;
use value_rows::Row;

// The name of the function whose address is the key.
fn key_name<'a>(functions: &Numbering<'a>, key: u64) -> &'a [u8]
    ensures { result.now ≡ spec.key_name functions.now key }
{
    let number = (key / 16).saturating_sub(1);
    match functions.get(number as usize) {
        Some(function) => function.name.bytes(),
        None => b"",
    }
}

fn target_of(alloc: Global, functions: &Numbering, key: u64, count: u64) -> Result<Target, NoMemory>
    ensures { IfOk result (λ target. target ≡ spec.target_of functions.now (key, count)) }
{
    let name = Vec::from_slice(alloc, key_name(functions, key))?;
    Ok((Seq::of(name), count))
}

fn targets_of(alloc: Global, functions: &Numbering, row: &Row) -> Result<Seq<Target>, NoMemory>
    ensures { IfOk result (λ targets. targets ≡ spec.targets_of functions.now row.now) }
{
    let mut targets = Vec::new(alloc);
    for (key, count) in row.kept.as_slice() {
        targets.push(target_of(alloc, functions, *key, *count)?)?;
    }
    Ok(Seq::of(targets))
}

fn sites_of(
    alloc: Global,
    functions: &Numbering,
    rows: &[Row],
) -> Result<Seq<Seq<Target>>, NoMemory>
    ensures sites { IfOk result (λ sites. sites ≡ map (spec.targets_of functions.now) rows.now) }
    ensures length { IfOk result (λ sites. length sites ≡ length rows.now) }
{
    let mut sites = Vec::new(alloc);
    for row in rows {
        sites.push(targets_of(alloc, functions, row)?)?;
    }
    Ok(Seq::of(sites))
}

fn record_of(
    alloc: Global,
    functions: &Numbering,
    tally: &Tally,
    counters: &[u64],
    rows: &[Row],
) -> Result<ProfRecord, NoMemory>
    ensures value { IfOk result (λ owned. value_of owned ≡ spec.record_of functions.now counters.now rows.now tally.now) }
    ensures counters { IfOk result (λ owned. length owned.counters < 2 ^ 32) }
    ensures sites { IfOk result (λ owned. length owned.sites < 2 ^ 32) }
{
    let name = Vec::from_slice(alloc, tally.name.as_slice())?;
    let counters = part(counters, tally.first_counter, tally.counters);
    let rows = part(rows, tally.first_site, tally.sites);
    Ok(ProfRecord {
        name: Seq::of(name),
        hash: tally.hash,
        counters: Seq::of(Vec::from_slice(alloc, counters)?),
        sites: sites_of(alloc, functions, rows)?,
    })
}

/// The record of each tally, in order.
pub fn records_of(
    alloc: Global,
    functions: &Numbering,
    tallies: &[Tally],
    counters: &[u64],
    rows: &[Row],
) -> Result<Vec<ProfRecord>, NoMemory>
    ensures values { IfOk result (λ all. values_of all.items ≡ spec.records_of functions.now tallies.now counters.now rows.now) }
    ensures counters { IfOk result (λ all. All (λ r. length r.counters < 2 ^ 32) all.items) }
    ensures sites { IfOk result (λ all. All (λ r. length r.sites < 2 ^ 32) all.items) }
{
    let mut all = Vec::new(alloc);
    for tally in tallies {
        all.push(record_of(alloc, functions, tally, counters, rows)?)?;
    }
    Ok(all)
}
