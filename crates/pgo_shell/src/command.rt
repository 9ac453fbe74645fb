// A command as the shell sees it: which files it reads and writes, and what it makes of their texts.
ghost use Rattle.std.specs.Prelude.{◌≡◌, IfErr, IfOk, None, length, slice_get};
ghost use Rattle.std.specs.Option.{option_map};

use pgo_base::{Gate, NoMemory};
use std::alloc::{AllocError, AllocFailed, Global};
use std::thread::Threads;

/// What a command makes of its texts: the line of a halt, if it halts; the bytes for the output; and the bytes for each
/// file that it writes, in order.
#[derive(Debug, Drop)]
pub struct Product {
    pub halted: Option<Vec<u8>>,
    pub output: Vec<u8>,
    pub files: Vec<Vec<u8>>,
}

/// Why a command makes nothing of its texts: one of them is refused, with a line that says why, or there was no memory.
#[derive(Debug, Drop)]
pub enum Refusal {
    Text { line: Vec<u8> },
    NoMemory,
}

impl From<AllocError> for Refusal {
    ghost use Rattle.std.specs.Prelude.{◌≡◌};
    ghost use Rattle.pgo_shell.specs.declared.command.Refusal.TheVariants as refusal;

    ghost from_gives = { λ _ e. e ≡ refusal.NoMemory };

    fn from(_: AllocError) -> Refusal {
        Refusal::NoMemory
    }
}

impl<T: Drop> From<AllocFailed<T>> for Refusal {
    ghost use Rattle.std.specs.Prelude.{◌≡◌};
    ghost use Rattle.pgo_shell.specs.declared.command.Refusal.TheVariants as refusal;

    ghost from_gives = { λ _ e. e ≡ refusal.NoMemory };

    fn from(_: AllocFailed<T>) -> Refusal {
        Refusal::NoMemory
    }
}

impl From<NoMemory> for Refusal {
    ghost use Rattle.std.specs.Prelude.{◌≡◌};
    ghost use Rattle.pgo_shell.specs.declared.command.Refusal.TheVariants as refusal;

    ghost from_gives = { λ _ e. e ≡ refusal.NoMemory };

    fn from(_: NoMemory) -> Refusal {
        Refusal::NoMemory
    }
}

/// A command with its arguments.
pub trait Command {
    ghost use Rattle.pgo_shell.specs.Product.{RefusedBy, bytes_of_all, made_of};
    ghost use Rattle.pgo_shell.specs.Shell.{Task};
    ghost use Rattle.std.specs.Thread.{IsSync};

    /// The names of the files that it reads and writes, in order, and the judgement of the texts of those that it reads.
    ghost task: { Self → Task };

    /// The name of the file that it reads at this place; None exactly behind the last.
    fn read_name(&self, index: usize) -> Option<&str>
        ensures { option_map (λ name. name.now) result ≡ slice_get (task self.now).reads index };

    /// The name of the file that it writes at this place; None exactly behind the last.
    fn write_name(&self, index: usize) -> Option<&str>
        ensures { option_map (λ name. name.now) result ≡ slice_get (task self.now).writes index };

    /// What it makes of the texts of its files. It touches nothing outside.
    fn product<R: Threads + Sync, G: Gate + Sync>(
        &self,
        rt: &R,
        alloc: Global,
        texts: &[Vec<u8>],
        gate: &G,
    ) -> Result<Product, Refusal>
        requires texts { length texts.now ≡ length (task self.now).reads }
        requires threads { IsSync R.row }
        ensures gives { IfOk result (λ product. ((task self.now).judges (bytes_of_all texts.now)).finds (made_of product)) }
        ensures refuses { IfErr result (RefusedBy ((task self.now).judges (bytes_of_all texts.now))) }
        ensures files { IfOk result (λ product. product.halted ≡ None → length product.files.items ≡ length (task self.now).writes) };
}
