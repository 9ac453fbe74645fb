// The command `run MODULE CALLS`: what it reads and writes.
ghost use Rattle.std.specs.Prelude.{◌<◌, ◌≤◌};

use crate::running::run_texts;
use pgo_base::Gate;
use pgo_shell::{Command, Product, Refusal};
use std::alloc::Global;
use std::thread::Threads;

/// The command `run`: the files of a module and of its calls, the steps that each call is given, 1 to 64 workers, the file of
/// the profile where one is asked for, whether that is entry-first, and the 1 to 24 places that a site has for call targets.
#[derive(Debug, Drop)]
pub struct Run {
    pub module: String,
    pub calls: String,
    pub steps: u64,
    pub workers: u32,
    pub profile: Option<String>,
    pub entry_first: bool,
    pub places: u32,
    ghost few_steps: { steps ≤ 1_099_511_627_776 },
    ghost some_workers: { 0 < workers },
    ghost few_workers: { workers ≤ 64 },
    ghost some_places: { 0 < places },
    ghost few_places: { places ≤ 24 },
}

impl Command for Run {
    ghost use Rattle.command_run.specs.Run.{run_task};
    ghost use Rattle.command_run.specs.RunFiles.{files_of};

    ghost task = { λ run. run_task (files_of run) };

    fn read_name(&self, index: usize) -> Option<&str> {
        match index {
            0 => Some(self.module.as_str()),
            1 => Some(self.calls.as_str()),
            _ => None,
        }
    }

    fn write_name(&self, index: usize) -> Option<&str> {
        match (index, &self.profile) {
            (0, Some(profile)) => Some(profile.as_str()),
            _ => None,
        }
    }

    fn product<R: Threads + Sync, G: Gate + Sync>(
        &self,
        rt: &R,
        alloc: Global,
        texts: &[Vec<u8>],
        _gate: &G,
    ) -> Result<Product, Refusal> {
        run_texts(rt, alloc, self, &texts[0], &texts[1])
    }
}
