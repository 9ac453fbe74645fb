// Plain atomic additions, for comparison.
use crate::measure::report;
use anyhow::Result;
use std::rt::Clock;
use std::sync::atomic::{AtomicU64, Ordering};
use std::thread;
use std::thread::Threads;
use std::time::Instant;

fn add_alone(words: &[AtomicU64], at: u32, rounds: u32) {
    let Some(word) = words.get(at as usize) else {
        return;
    };
    for _ in 0..rounds {
        word.fetch_add(1, Ordering::SeqCst);
    }
}

fn add_by_two<R: Threads>(rt: &R, words: &[AtomicU64], one: u32, two: u32, rounds: u32) {
    thread::join(
        rt,
        move || add_alone(words, one, rounds),
        move || add_alone(words, two, rounds),
    );
}

fn add_by<R: Threads + Sync>(rt: &R, words: &[AtomicU64], workers: u32, at: [u32; 4], rounds: u32) {
    let [one, two, three, four] = at;
    match workers {
        1 => add_alone(words, one, rounds),
        2 => add_by_two(rt, words, one, two, rounds),
        _ => {
            thread::join(
                rt,
                move || add_by_two(rt, words, one, two, rounds),
                move || add_by_two(rt, words, three, four, rounds),
            );
        }
    }
}

/// Each worker adds 1 to its word `rounds` times, of as many words as the table has.
pub fn run<R: Threads + Sync + Clock + Eprint + AllocGlobal>(
    rt: &R,
    workers: u32,
    apart: bool,
    at: [u32; 4],
    rounds: u32,
) -> Result<()> {
    let mut words = Vec::with_capacity(rt.alloc(), 64)?;
    for _ in 0..64 {
        words.push(AtomicU64::new(0))?;
    }
    let start = Instant::now(rt)?;
    add_by(rt, words.as_slice(), workers, at, rounds);
    let took = start.elapsed(rt)?;
    report(rt, "plain words", workers, apart, rounds, took)?;
    Ok(())
}
