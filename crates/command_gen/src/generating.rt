// The command `gen MODULE OUT`: reads and checks a plain module, and writes the one that counts it.
ghost use Rattle.std.specs.Prelude.{◌≡◌, IfErr, IfOk, length};
ghost use Rattle.command_gen.specs.Gen.{gen_judgement};
ghost use Rattle.command_gen.specs.GenFiles.{files_of};
ghost use Rattle.command_texts.specs.Program.{is_plain};
ghost use Rattle.gen_plan.specs.Gen.{counted};
ghost use Rattle.pgo_shell.specs.Product.{RefusedBy, made_of};

use command_texts::{program, wrong_kind};
use command_written::written;
use gen_module::{GenError, gen_module};
use ir_check::Checked;
use pgo_base::Gate;
use pgo_shell::{Command, Product, Refusal};
use std::alloc::Global;
use std::thread::Threads;

/// The command `gen`: the file of a plain module, the file that gets the module that counts it, and whether the entry is counted first.
/// It is what `opt -passes=pgo-instr-gen -S` does.
#[derive(Debug, Drop)]
pub struct Gen {
    pub module: String,
    pub out: String,
    pub entry_first: bool,
}

impl Command for Gen {
    ghost use Rattle.command_gen.specs.Gen.{gen_task};
    ghost use Rattle.command_gen.specs.GenFiles.{files_of};

    ghost task = { λ command. gen_task (files_of command) };

    fn read_name(&self, index: usize) -> Option<&str> {
        match index {
            0 => Some(self.module.as_str()),
            _ => None,
        }
    }

    fn write_name(&self, index: usize) -> Option<&str> {
        match index {
            0 => Some(self.out.as_str()),
            _ => None,
        }
    }

    fn product<R: Threads + Sync, G: Gate + Sync>(
        &self,
        _rt: &R,
        alloc: Global,
        texts: &[Vec<u8>],
        _gate: &G,
    ) -> Result<Product, Refusal> {
        gen_text(alloc, self, &texts[0])
    }
}

// What the text of its file comes to.
fn gen_text(alloc: Global, command: &Gen, text: &[u8]) -> Result<Product, Refusal>
    ensures gives { IfOk result (λ p. (gen_judgement (files_of command.now) text.now).finds (made_of p)) }
    ensures refuses { IfErr result (RefusedBy (gen_judgement (files_of command.now) text.now)) }
    ensures files { IfOk result (λ p. length p.files.items ≡ 1) }
{
    let module = program(alloc, &command.module, text)?;
    let made = counted(alloc, command, &module)?;
    Ok(written(alloc, &made)?)
}

// The module that counts a plain one. One of another kind is refused.
fn counted(alloc: Global, command: &Gen, module: &Checked) -> Result<Checked, Refusal>
    ensures made { IfOk result (λ made. made ≡ counted command.now.entry_first «module».now) }
    ensures found { IfOk result (λ made. (is_plain (files_of command.now).«module» «module».now).finds tt) }
    ensures refuses { IfErr result (RefusedBy (is_plain (files_of command.now).«module» «module».now)) }
{
    match gen_module(alloc, module, command.entry_first) {
        Ok(made) => Ok(made),
        Err(GenError::WrongKind { .. }) => Err(wrong_kind(alloc, &command.module, module)),
        Err(GenError::NoMemory) => Err(Refusal::NoMemory),
    }
}
