//! Merges profiles from their texts in memory to the merged text, by one, two and four workers.
//!
//! Standard output has the totals of the merged profiles, which are the same for every number of workers. Given how many
//! profiles there are, how many records each has, and how many workers there are, the program also measures: standard
//! error has the milliseconds that reading, merging and writing took.
#![tactic(auto)]

ghost use Rattle.std.specs.Prelude.{◌<◌, ◌≤◌, ◌^◌, length};

mod measure;
mod texts;

use anyhow::{Context, Result, bail};
use measure::lap;
use prof_merge::{MergeInputs, merge, read_all, show};
use prof_text::{MergeError, Profile, write};
use std::alloc::Global;
use std::env;
use std::rt::Clock;
use std::thread::Threads;
use std::time::Instant;
use texts::profile_texts;

// The merge where no numbers are given: enough records for runs of inputs to meet.
const PROFILES: u32 = 8;

const RECORDS: u32 = 40;

// What is merged, and whether it is measured.
#[derive(Clone, Copy, Drop)]
struct Load {
    profiles: u32,
    records: u32,
    measured: bool,
}

fn main(rt: HostRuntime) -> Result<()> {
    let mut given = env::args(&rt)?.skip(1);
    let Some(profiles) = given.next() else {
        let load = Load {
            profiles: PROFILES,
            records: RECORDS,
            measured: false,
        };
        return run(&rt, load, &[1, 2, 4]);
    };
    let records = given.next().context("a number of records")?;
    let workers = given.next().context("a number of workers")?;
    let load = Load {
        profiles: number(&profiles)?,
        records: number(&records)?,
        measured: true,
    };
    run(&rt, load, &[number(&workers)?])
}

fn number(word: &str) -> Result<u32> {
    word.parse::<u32>().context("a number")
}

// Merges the same texts by each of these numbers of workers.
fn run<R: Threads + Sync + Clock + Print + Eprint + AllocGlobal>(
    rt: &R,
    load: Load,
    numbers: &[u32],
) -> Result<()> {
    let alloc = rt.alloc();
    let texts = profile_texts(alloc, load.profiles, load.records)?;
    for workers in numbers {
        let clock = Instant::now(rt)?;
        let inputs = inputs_of(rt, alloc, &texts, *workers)?;
        lap(rt, load.measured, "read", &clock)?;
        let profile = merged(rt, alloc, &inputs, *workers)?;
        lap(rt, load.measured, "merged", &clock)?;
        let text = write(alloc, &profile)?;
        lap(rt, load.measured, "wrote", &clock)?;
        report(rt, alloc, &profile, *workers, text.len())?;
    }
    Ok(())
}

fn inputs_of<'a, R: Threads + Sync>(
    rt: &R,
    alloc: Global,
    texts: &'a [Vec<u8>],
    workers: u32,
) -> Result<MergeInputs<'a>> {
    if workers == 0 {
        bail!("1 to 64 workers");
    }
    let mut inputs = MergeInputs::new(alloc);
    for view in read_all(rt, alloc, texts, workers)? {
        inputs.add(view?)?;
    }
    Ok(inputs)
}

fn merged<R: Threads + Sync>(
    rt: &R,
    alloc: Global,
    inputs: &MergeInputs<'_>,
    workers: u32,
) -> Result<Profile> {
    let many = inputs.len() > 64 || workers > 64;
    if inputs.is_empty() || workers == 0 || many {
        bail!("1 to 64 profiles and workers");
    }
    Ok(merge(rt, alloc, inputs, workers)?)
}

// Prints the totals of the merged profile.
fn report<R: Print + AllocGlobal>(
    rt: &R,
    alloc: Global,
    profile: &Profile,
    workers: u32,
    bytes: usize,
) -> Result<()> {
    let shown = show(alloc, profile)?;
    let totals = String::from_utf8(shown).context("text")?;
    println!(rt; "workers {workers} bytes {bytes}")?;
    print!(rt; "{totals}")?;
    Ok(())
}
