// The command `print MODULE`: reads and checks a module, and prints its canonical text.
ghost use Rattle.std.specs.Prelude.{◌≡◌, [], IfErr, IfOk};
ghost use Rattle.command_print.specs.Print.{print_judgement};
ghost use Rattle.command_print.specs.PrintFiles.{files_of};
ghost use Rattle.pgo_shell.specs.Product.{RefusedBy, made_of};

use command_texts::program;
use ir_print::print;
use pgo_base::Gate;
use pgo_shell::{Command, Product, Refusal};
use std::alloc::Global;
use std::thread::Threads;

/// The command `print`: the file of a module.
#[derive(Debug, Drop)]
pub struct Print {
    pub module: String,
}

impl Command for Print {
    ghost use Rattle.command_print.specs.Print.{print_task};
    ghost use Rattle.command_print.specs.PrintFiles.{files_of};

    ghost task = { λ command. print_task (files_of command) };

    fn read_name(&self, index: usize) -> Option<&str> {
        match index {
            0 => Some(self.module.as_str()),
            _ => None,
        }
    }

    fn write_name(&self, _index: usize) -> Option<&str> {
        None
    }

    fn product<R: Threads + Sync, G: Gate + Sync>(
        &self,
        _rt: &R,
        alloc: Global,
        texts: &[Vec<u8>],
        _gate: &G,
    ) -> Result<Product, Refusal> {
        print_text(alloc, self, &texts[0])
    }
}

// What the text of its file comes to.
fn print_text(alloc: Global, command: &Print, text: &[u8]) -> Result<Product, Refusal>
    ensures gives { IfOk result (λ p. (print_judgement (files_of command.now) text.now).finds (made_of p)) }
    ensures refuses { IfErr result (RefusedBy (print_judgement (files_of command.now) text.now)) }
    ensures files { IfOk result (λ p. p.files.items ≡ []) }
{
    let module = program(alloc, &command.module, text)?;
    let mut output = Vec::new(alloc);
    print(alloc, &mut output, module.module())?;
    Ok(Product {
        halted: None,
        output,
        files: Vec::new(alloc),
    })
}
