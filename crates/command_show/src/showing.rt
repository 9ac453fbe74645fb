// The command `show IN`: reads a profile, and prints its totals.
ghost use Rattle.std.specs.Prelude.{◌≡◌, [], IfErr, IfOk};
ghost use Rattle.command_show.specs.Show.{show_judgement};
ghost use Rattle.command_show.specs.ShowFiles.{files_of};
ghost use Rattle.pgo_shell.specs.Product.{RefusedBy, made_of};

use command_profiles::{merged_alone, profile};
use pgo_base::Gate;
use pgo_shell::{Command, Product, Refusal};
use prof_merge::show;
use std::alloc::Global;
use std::thread::Threads;

/// The command `show`: the file of a profile.
#[derive(Debug, Drop)]
pub struct Show {
    pub input: String,
}

impl Command for Show {
    ghost use Rattle.command_show.specs.Show.{show_task};
    ghost use Rattle.command_show.specs.ShowFiles.{files_of};

    ghost task = { λ show. show_task (files_of show) };

    fn read_name(&self, index: usize) -> Option<&str> {
        match index {
            0 => Some(self.input.as_str()),
            _ => None,
        }
    }

    fn write_name(&self, _index: usize) -> Option<&str> {
        None
    }

    fn product<R: Threads + Sync, G: Gate + Sync>(
        &self,
        rt: &R,
        alloc: Global,
        texts: &[Vec<u8>],
        _gate: &G,
    ) -> Result<Product, Refusal> {
        totals(rt, alloc, self, &texts[0])
    }
}

// What the text of its file comes to.
fn totals<R: Threads + Sync>(
    rt: &R,
    alloc: Global,
    command: &Show,
    text: &[u8],
) -> Result<Product, Refusal>
    ensures gives { IfOk result (λ p. (show_judgement (files_of command.now) text.now).finds (made_of p)) }
    ensures refuses { IfErr result (RefusedBy (show_judgement (files_of command.now) text.now)) }
    ensures files { IfOk result (λ p. p.files.items ≡ []) }
{
    let view = profile(alloc, &command.input, text)?;
    let sum = merged_alone(rt, alloc, view)?;
    Ok(Product {
        halted: None,
        output: show(alloc, &sum)?,
        files: Vec::new(alloc),
    })
}
