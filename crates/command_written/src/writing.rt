// The product of a command that writes one module.
ghost use Rattle.std.specs.Prelude.{◌≡◌, IfOk, length};
ghost use Rattle.command_written.specs.Written.{ModuleMakes};
ghost use Rattle.pgo_shell.specs.Product.{made_of};

use ir_check::Checked;
use ir_print::print;
use pgo_base::NoMemory;
use pgo_shell::Product;
use std::alloc::Global;

/// The product of a command that writes the canonical text of this module to its one file, and prints nothing. Only memory can be wanting.
pub fn written(alloc: Global, module: &Checked) -> Result<Product, NoMemory>
    ensures makes { IfOk result (λ p. ModuleMakes «module».now (made_of p)) }
    ensures files { IfOk result (λ p. length p.files.items ≡ 1) }
{
    let mut text = Vec::new(alloc);
    print(alloc, &mut text, module.module())?;
    let mut files = Vec::new(alloc);
    files.push(text)?;
    Ok(Product {
        halted: None,
        output: Vec::new(alloc),
        files,
    })
}
