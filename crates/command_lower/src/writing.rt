// The command `lower MODULE OUT`: reads and checks a module that counts, and writes its lowered form.
ghost use Rattle.std.specs.Prelude.{◌≡◌, IfErr, IfOk, length};
ghost use Rattle.command_lower.specs.Lower.{lower_judgement, lowered_from};
ghost use Rattle.command_lower.specs.LowerFiles.{files_of};
ghost use Rattle.pgo_shell.specs.Product.{RefusedBy, made_of};

use crate::reasons::refused_lowering;
use command_texts::program;
use command_written::written;
use instr_lower::lower;
use ir_check::Checked;
use pgo_base::Gate;
use pgo_shell::{Command, Product, Refusal};
use std::alloc::Global;
use std::thread::Threads;

/// The command `lower`: the file of a module that counts by LLVM's intrinsics, and the file that gets its lowered form. It is what
/// `opt -passes=instrprof -S` does.
#[derive(Debug, Drop)]
pub struct Lower {
    pub module: String,
    pub out: String,
}

impl Command for Lower {
    ghost use Rattle.command_lower.specs.Lower.{lower_task};
    ghost use Rattle.command_lower.specs.LowerFiles.{files_of};

    ghost task = { λ command. lower_task (files_of command) };

    fn read_name(&self, index: usize) -> Option<&str> {
        match index {
            0 => Some(self.module.as_str()),
            _ => None,
        }
    }

    fn write_name(&self, index: usize) -> Option<&str> {
        match index {
            0 => Some(self.out.as_str()),
            _ => None,
        }
    }

    fn product<R: Threads + Sync, G: Gate + Sync>(
        &self,
        _rt: &R,
        alloc: Global,
        texts: &[Vec<u8>],
        _gate: &G,
    ) -> Result<Product, Refusal> {
        lower_text(alloc, self, &texts[0])
    }
}

// What the text of its file comes to.
fn lower_text(alloc: Global, command: &Lower, text: &[u8]) -> Result<Product, Refusal>
    ensures gives { IfOk result (λ p. (lower_judgement (files_of command.now) text.now).finds (made_of p)) }
    ensures refuses { IfErr result (RefusedBy (lower_judgement (files_of command.now) text.now)) }
    ensures files { IfOk result (λ p. length p.files.items ≡ 1) }
{
    let module = program(alloc, &command.module, text)?;
    let made = lowered_form(alloc, &command.module, &module)?;
    Ok(written(alloc, &made)?)
}

// The lowered form of a module, or the line that says why it has none.
fn lowered_form(alloc: Global, name: &str, module: &Checked) -> Result<Checked, Refusal>
    ensures found { IfOk result (λ made. (lowered_from name.now «module».now).finds made) }
    ensures refuses { IfErr result (RefusedBy (lowered_from name.now «module».now)) }
{
    match lower(alloc, module) {
        Ok(made) => Ok(made),
        Err(why) => Err(refused_lowering(alloc, name, why)),
    }
}
