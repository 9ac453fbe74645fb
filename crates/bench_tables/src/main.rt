//! Runs the shared tables under one, two and four threads.
//!
//! Standard output has the totals, which are the same whatever the schedule. Given a number of
//! rounds, the program also measures: standard error has the steps a second, beside those of plain
//! atomic additions on as many words.
#![tactic(auto)]

mod counters;
mod measure;
mod plain;
mod rows;

use anyhow::{Context, Result};
use std::env;

// Rounds of each worker where none are given: enough for four threads to meet.
const ROUNDS: u32 = 5_000;

fn main(rt: HostRuntime) -> Result<()> {
    let given = env::args(&rt)?.nth(1);
    let rounds = match &given {
        Some(text) => text.as_str().parse::<u32>().context("a number of rounds")?,
        None => ROUNDS,
    };
    let measured = given.is_some();
    for workers in [1, 2, 4] {
        counters::run(&rt, workers, false, rounds, measured)?;
        counters::run(&rt, workers, true, rounds, measured)?;
        rows::run(&rt, workers, rounds, measured)?;
    }
    Ok(())
}
