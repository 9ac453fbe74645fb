// Profile texts, read by several workers.
ghost use Rattle.std.specs.Prelude.{◌<◌, IfOk};
ghost use Rattle.prof_merge.specs.Reading.{AreReadings, IsReading};

use prof_view::{ProfileView, ViewError};
use rayon::prelude::*;
use std::alloc::{AllocError, Global};
use std::thread::Threads;

/// What `ProfileView::read` answers to each of these texts, in order. The texts are cut into at most as many runs as
/// there are workers, each read in a thread of its own where threads are to be had.
pub fn read_all<'a, R: Threads + Sync>(
    rt: &R,
    alloc: Global,
    texts: &'a [Vec<u8>],
    workers: u32,
) -> Result<Vec<Result<ProfileView<'a>, ViewError>>, AllocError>
    requires { 0 < workers }
    ensures { IfOk result (λ answers. AreReadings texts.now answers.items) }
{
    let least = texts.len().div_ceil(workers as usize);
    texts
        .par_iter()
        .with_min_len(least)
        .map(
            move |text: &Vec<u8>| -> Result<ProfileView, ViewError>
                ensures { IsReading text.now.items result }
            { ProfileView::read(alloc, text) },
        )
        .collect(rt, alloc)
}
