// The text that shows a profile's totals.
ghost use Rattle.std.specs.Prelude.{◌≡◌, ◌++◌, decimal, OnOk, IfOk};
ghost use Rattle.prof_merge.specs.Show.{show_line, counters_text, show_text};

use crate::totals::{counter_sum, counter_total, greatest_counter, site_total, target_total};
use itoa::Buffer;
use pgo_base::NoMemory;
use prof_text::Profile;
use std::alloc::Global;

fn push(out: &mut Vec<u8>, bytes: &[u8]) -> Result<(), NoMemory>
    ensures { OnOk result (out.new.items ≡ out.old.items ++ bytes.now) }
{
    out.extend_from_slice(bytes)?;
    Ok(())
}

fn push_number(out: &mut Vec<u8>, number: u64) -> Result<(), NoMemory>
    ensures { OnOk result (out.new.items ≡ out.old.items ++ decimal number) }
{
    let mut buffer = Buffer::new();
    push(out, buffer.format(number).as_bytes())
}

#[tactic(auto, unfolding(crate::specs::Show::show_line))]
fn push_line(out: &mut Vec<u8>, word: &[u8], number: u64) -> Result<(), NoMemory>
    ensures { OnOk result (out.new.items ≡ out.old.items ++ show_line word.now number) }
{
    push(out, word)?;
    push_number(out, number)?;
    push(out, b"\n")
}

#[tactic(auto, unfolding(crate::specs::Show::counters_text))]
fn push_counters(out: &mut Vec<u8>, profile: &Profile) -> Result<(), NoMemory>
    ensures { OnOk result (out.new.items ≡ out.old.items ++ counters_text profile.now) }
{
    let records = profile.records();
    push_line(out, b"records ", records.len() as u64)?;
    push_line(out, b"counters ", counter_total(records))?;
    push_line(out, b"sum ", counter_sum(records))?;
    push_line(out, b"greatest ", greatest_counter(records))
}

/// The totals of a profile, a line each: `records`, `counters`, `sum` and `greatest` of the counters, `sites`,
/// `targets`. Sums stop at 2^64 - 1, and the greatest counter is 0 where there is none. (`llvm-profdata show` prints
/// such totals in other words.)
#[tactic(auto, unfolding(crate::specs::Show::show_text))]
pub fn show(alloc: Global, profile: &Profile) -> Result<Vec<u8>, NoMemory>
    ensures { IfOk result (λ text. text.items ≡ show_text profile.now) }
{
    let mut out = Vec::new(alloc);
    push_counters(&mut out, profile)?;
    let records = profile.records();
    push_line(&mut out, b"sites ", site_total(records))?;
    push_line(&mut out, b"targets ", target_total(records))?;
    Ok(out)
}
