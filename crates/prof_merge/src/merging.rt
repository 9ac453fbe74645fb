// The merge of profiles.
ghost use Rattle.std.specs.Prelude.{◌≡◌, ◌<◌, ◌≤◌, ◌^◌, List, length, IfOk, IfErr};
ghost use Rattle.std.specs.List.{AllZip, flat_map};
ghost use Rattle.prof_view.specs.Profile.{ProfileInput};
ghost use Rattle.prof_merge.specs.Inputs.{IsMergeOf, IsMergeRefusal};
ghost use Rattle.prof_merge.specs.Parts.{GathersInputs};

use crate::header::first_other;
use crate::inputs::MergeInputs;
use crate::parts::parts_of;
use pgo_base::NoMemory;
use prof_text::{Gathered, MergeError, Profile};
use prof_view::ProfileView;
use std::alloc::Global;
use std::thread::Threads;

// The parts, put together in order.
fn joined<'a>(
    alloc: Global,
    parts: Vec<Result<Gathered<'a>, NoMemory>>,
) -> Result<Gathered<'a>, NoMemory>
    ensures { (runs : List (List ProfileInput)) → AllZip (λ run part. IfOk part (GathersInputs run)) runs parts.entry.items → IfOk result (GathersInputs (flat_map (λ run. run) runs)) }
{
    let mut whole = Gathered::new(alloc);
    for part in parts {
        whole.absorb(part?)?;
    }
    Ok(whole)
}

// The records of all profiles, by their keys.
fn gathered_of<'a, R: Threads + Sync>(
    rt: &R,
    alloc: Global,
    views: &[ProfileView<'a>],
    workers: u32,
) -> Result<Gathered<'a>, NoMemory>
    requires few { length views.now < 2 ^ 32 }
    requires some { 0 < length views.now }
    requires workers { 0 < workers }
    ensures { IfOk result (GathersInputs views.now) }
{
    let size = views.len().div_ceil(workers as usize);
    let parts = parts_of(rt, alloc, views, size)?;
    joined(alloc, parts)
}

/// The merge of these profiles, of which there are 1 to 4,294,967,295, by 1 to 64 workers: the inputs are cut into at
/// most so many runs, each merged in a thread of its own where threads are to be had. Records of one name and hash are
/// added up, counter by counter and target by target, where sums stop at 2^64 - 1, as `llvm-profdata merge` does.
///
/// `HeaderMismatch` comes exactly where two profiles differ in mode, before any other mismatch. `CounterMismatch` and
/// `SiteMismatch` come exactly where all profiles have one mode and two records of one name and hash have other numbers
/// of counters, or else of sites.
pub fn merge<R: Threads + Sync>(
    rt: &R,
    alloc: Global,
    inputs: &MergeInputs<'_>,
    workers: u32,
) -> Result<Profile, MergeError>
    requires some { 0 < length inputs.now }
    requires few { length inputs.now < 2 ^ 32 }
    requires workers { (0 < workers) × (workers ≤ 64) }
    ensures merged { IfOk result (IsMergeOf inputs.now) }
    ensures refused { IfErr result (IsMergeRefusal inputs.now) }
{
    let views = inputs.views();
    let first = views[0].entry_first();
    if let Some(input) = first_other(views, first) {
        return Err(MergeError::HeaderMismatch {
            input: input as u32,
            first,
            other: !first,
        });
    }
    let gathered = gathered_of(rt, alloc, views, workers)?;
    gathered.finish(alloc, first)
}
