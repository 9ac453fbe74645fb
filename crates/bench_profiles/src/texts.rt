// The profiles that are merged, made by a fixed rule.
use anyhow::Result;
use push_text::{push, push_number};
use std::alloc::Global;

const COUNTERS: u32 = 8;

// The next of a row of numbers (Knuth's MMIX generator).
fn next(state: u64) -> u64 {
    state
        .wrapping_mul(6364136223846793005)
        .wrapping_add(1442695040888963407)
}

/// The texts of so many profiles with so many records each. All have the same functions, with counters of their own.
pub fn profile_texts(alloc: Global, profiles: u32, records: u32) -> Result<Vec<Vec<u8>>> {
    let mut texts = Vec::new(alloc);
    for profile in 0..profiles {
        texts.push(profile_text(alloc, profile, records)?)?;
    }
    Ok(texts)
}

fn profile_text(alloc: Global, profile: u32, records: u32) -> Result<Vec<u8>> {
    let mut text = Vec::new(alloc);
    push(&mut text, b":ir\n")?;
    for function in 0..records {
        push_record(&mut text, profile, function)?;
    }
    Ok(text)
}

fn push_record(text: &mut Vec<u8>, profile: u32, function: u32) -> Result<()> {
    push(text, b"module.c:function_")?;
    push_number(text, u64::from(function))?;
    push(text, b"\n# Func Hash:\n")?;
    push_number(text, next(u64::from(function)))?;
    push(text, b"\n# Num Counters:\n")?;
    push_number(text, u64::from(COUNTERS))?;
    push(text, b"\n# Counter Values:\n")?;
    let mut state = next(u64::from(profile) + u64::from(function));
    for _ in 0..COUNTERS {
        push_number(text, state >> 40)?;
        push(text, b"\n")?;
        state = next(state);
    }
    push(text, b"\n")?;
    Ok(())
}
