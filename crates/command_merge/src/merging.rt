// The command `merge OUT IN ..`: reads profiles, and writes their merge.
ghost use Rattle.std.specs.Prelude.{◌≡◌, ◌<◌, ◌≤◌, IfErr, IfOk, length, map};
ghost use Rattle.std.specs.String.{string_bytes};
ghost use Rattle.command_merge.specs.Merge.{merge_judgement};
ghost use Rattle.pgo_shell.specs.Product.{RefusedBy, bytes_of_all, made_of};

use command_profiles::{merged, profiles};
use pgo_base::Gate;
use pgo_shell::{Command, Product, Refusal};
use prof_text::write;
use std::alloc::Global;
use std::thread::Threads;

/// The command `merge`: the file that it writes, the files of 1 to 64 profiles, and 1 to 64 workers.
#[derive(Debug, Drop)]
pub struct Merge {
    pub out: String,
    pub inputs: Vec<String>,
    pub workers: u32,
    ghost some: { 0 < length inputs.items },
    ghost few: { length inputs.items ≤ 64 },
    ghost some_workers: { 0 < workers },
    ghost few_workers: { workers ≤ 64 },
}

impl Command for Merge {
    ghost use Rattle.command_merge.specs.Merge.{merge_task};
    ghost use Rattle.command_merge.specs.MergeFiles.{files_of};

    ghost task = { λ merge. merge_task (files_of merge) };

    fn read_name(&self, index: usize) -> Option<&str> {
        match self.inputs.get(index) {
            Some(input) => Some(input.as_str()),
            None => None,
        }
    }

    fn write_name(&self, index: usize) -> Option<&str> {
        match index {
            0 => Some(self.out.as_str()),
            _ => None,
        }
    }

    fn product<R: Threads + Sync, G: Gate + Sync>(
        &self,
        rt: &R,
        alloc: Global,
        texts: &[Vec<u8>],
        _gate: &G,
    ) -> Result<Product, Refusal> {
        merge_texts(rt, alloc, self.inputs.as_slice(), texts, self.workers)
    }
}

// What the texts of the profiles' files come to, by so many workers.
fn merge_texts<R: Threads + Sync>(
    rt: &R,
    alloc: Global,
    names: &[String],
    texts: &[Vec<u8>],
    workers: u32,
) -> Result<Product, Refusal>
    requires texts { length texts.now ≡ length names.now }
    requires some { 0 < length names.now }
    requires few { length names.now ≤ 64 }
    requires workers { (0 < workers) × (workers ≤ 64) }
    ensures gives { IfOk result (λ p. (merge_judgement (map string_bytes names.now) (bytes_of_all texts.now)).finds (made_of p)) }
    ensures refuses { IfErr result (RefusedBy (merge_judgement (map string_bytes names.now) (bytes_of_all texts.now))) }
    ensures files { IfOk result (λ p. length p.files.items ≡ 1) }
{
    let inputs = profiles(rt, alloc, names, texts, workers)?;
    let sum = merged(rt, alloc, &inputs, workers)?;
    let mut files = Vec::new(alloc);
    files.push(write(alloc, &sum)?)?;
    Ok(Product {
        halted: None,
        output: Vec::new(alloc),
        files,
    })
}
