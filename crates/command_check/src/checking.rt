// The command `check MODULE`: reads and checks a module, and prints its kind.
ghost use Rattle.std.specs.Prelude.{◌≡◌, [], IfErr, IfOk};
ghost use Rattle.command_check.specs.Check.{check_judgement, kind_line};
ghost use Rattle.command_check.specs.CheckFiles.{files_of};
ghost use Rattle.pgo_shell.specs.Product.{RefusedBy, made_of};

use command_texts::program;
use ir_check::Kind;
use pgo_base::Gate;
use pgo_shell::{Command, Product, Refusal};
use std::alloc::Global;
use std::thread::Threads;

/// The command `check`: the file of a module.
#[derive(Debug, Drop)]
pub struct Check {
    pub module: String,
}

impl Command for Check {
    ghost use Rattle.command_check.specs.Check.{check_task};
    ghost use Rattle.command_check.specs.CheckFiles.{files_of};

    ghost task = { λ check. check_task (files_of check) };

    fn read_name(&self, index: usize) -> Option<&str> {
        match index {
            0 => Some(self.module.as_str()),
            _ => None,
        }
    }

    fn write_name(&self, _index: usize) -> Option<&str> {
        None
    }

    fn product<R: Threads + Sync, G: Gate + Sync>(
        &self,
        _rt: &R,
        alloc: Global,
        texts: &[Vec<u8>],
        _gate: &G,
    ) -> Result<Product, Refusal> {
        check_text(alloc, self, &texts[0])
    }
}

// What the text of its file comes to.
fn check_text(alloc: Global, command: &Check, text: &[u8]) -> Result<Product, Refusal>
    ensures gives { IfOk result (λ p. (check_judgement (files_of command.now) text.now).finds (made_of p)) }
    ensures refuses { IfErr result (RefusedBy (check_judgement (files_of command.now) text.now)) }
    ensures files { IfOk result (λ p. p.files.items ≡ []) }
{
    let module = program(alloc, &command.module, text)?;
    Ok(Product {
        halted: None,
        output: Vec::from_slice(alloc, kind_line(module.kind()))?,
        files: Vec::new(alloc),
    })
}

// The line of a kind.
fn kind_line(kind: Kind) -> &'static [u8]
    ensures { result.now ≡ kind_line kind }
{
    match kind {
        Kind::Plain => b"plain\n",
        Kind::Counted => b"counted\n",
        Kind::Lowered => b"lowered\n",
    }
}
