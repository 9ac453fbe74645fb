// The parts of a merge: each gathers the records of a run of profiles.
ghost use Rattle.std.specs.Prelude.{◌≡◌, ◌++◌, ◌∷◌, ◌<◌, [], List, IfOk, OnOk};
ghost use Rattle.std.specs.List.{AllZip};
ghost use Rattle.rayon.specs.Lists.{chunks_of};
ghost use Rattle.prof_view.specs.Profile.{ProfileRecord};
ghost use Rattle.prof_text.specs.Merged.{Key, key_of, of_key};
ghost use Rattle.prof_text.specs.Site.{targets_of, sites_of};
ghost use Rattle.prof_text.specs.Gathered.{Gathers, with_records};
ghost use Rattle.prof_merge.specs.Parts.{GathersInputs};

use pgo_base::NoMemory;
use prof_text::Gathered;
use prof_view::{CounterLines, ProfileView, RecordView, SiteLines, SiteView};
use rayon::prelude::*;
use std::alloc::{AllocError, Global};
use std::thread::Threads;

// Reads the counters, in the place of those that are there.
fn read_counters(lines: CounterLines<'_>, counters: &mut Vec<u64>) -> Result<(), NoMemory>
    ensures { OnOk result (counters.new.items ≡ lines.entry) }
{
    counters.clear();
    for counter in lines {
        counters.push(counter)?;
    }
    Ok(())
}

fn targets_read<'a>(alloc: Global, site: &SiteView<'a>) -> Result<Vec<(&'a [u8], u64)>, NoMemory>
    ensures { IfOk result (λ v. targets_of v.items ≡ site.now) }
{
    let mut targets = Vec::new(alloc);
    for target in site.targets() {
        targets.push(target)?;
    }
    Ok(targets)
}

fn sites_read<'a>(
    alloc: Global,
    lines: SiteLines<'a>,
) -> Result<Vec<Vec<(&'a [u8], u64)>>, NoMemory>
    ensures { IfOk result (λ v. sites_of v.items ≡ lines.entry) }
{
    let mut sites = Vec::new(alloc);
    for site in lines {
        sites.push(targets_read(alloc, &site)?)?;
    }
    Ok(sites)
}

// Puts a record behind those of its key. The counters are read into a list that each record takes anew.
fn put_record<'a>(
    alloc: Global,
    gathered: &mut Gathered<'a>,
    viewed: &RecordView<'a>,
    counters: &mut Vec<u64>,
) -> Result<(), NoMemory>
    ensures { (f : Key → List ProfileRecord) → Gathers gathered.old f → OnOk result (Gathers gathered.new (with_records f (key_of viewed.now) (viewed.now ∷ []))) }
{
    read_counters(viewed.counters(), counters)?;
    let sites = sites_read(alloc, viewed.sites())?;
    gathered.add(
        alloc,
        viewed.name(),
        viewed.hash(),
        counters.as_slice(),
        sites,
    )
}

fn put_view<'a>(
    alloc: Global,
    gathered: &mut Gathered<'a>,
    view: &ProfileView<'a>,
    counters: &mut Vec<u64>,
) -> Result<(), NoMemory>
    ensures { (before : List ProfileRecord) → Gathers gathered.old (λ key. of_key key before) → OnOk result (Gathers gathered.new (λ key. of_key key (before ++ view.now.records))) }
{
    for i in 0..view.len() {
        put_record(alloc, gathered, &view.at(i), counters)?;
    }
    Ok(())
}

// The records of a run of profiles, by their keys.
fn part_of<'a>(alloc: Global, run: &[ProfileView<'a>]) -> Result<Gathered<'a>, NoMemory>
    ensures { IfOk result (GathersInputs run.now) }
{
    let mut gathered = Gathered::new(alloc);
    let mut counters = Vec::new(alloc);
    for view in run {
        put_view(alloc, &mut gathered, view, &mut counters)?;
    }
    Ok(gathered)
}

/// The parts of all runs of `size` profiles, in order, each made in a thread of its own where threads are to be had.
pub fn parts_of<'a, R: Threads + Sync>(
    rt: &R,
    alloc: Global,
    views: &[ProfileView<'a>],
    size: usize,
) -> Result<Vec<Result<Gathered<'a>, NoMemory>>, AllocError>
    requires { 0 < size }
    ensures { IfOk result (λ parts. AllZip (λ run part. IfOk part (GathersInputs run)) (chunks_of size views.now) parts.items) }
{
    views
        .par_chunks(size)
        .with_min_len(1)
        .map(
            move |run: &[ProfileView]| -> Result<Gathered, NoMemory>
                ensures { IfOk result (GathersInputs run.now) }
            { part_of(alloc, run) },
        )
        .collect(rt, alloc)
}
