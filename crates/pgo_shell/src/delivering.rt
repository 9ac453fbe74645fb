// Delivering what a command made: first the output, then the files in order.
ghost use Rattle.std.specs.Prelude.{◌≡◌, None, length};
ghost use Rattle.pgo_shell.specs.Product.{bytes_of_all, made_of};
ghost use Rattle.pgo_shell.specs.Shell.{Delivered};
ghost use Rattle.pgo_shell.specs.World.{world};
ghost use Rattle.pgo_shell.specs.Steps.{DeliveryCauses, FilesLeft, OutputLeft, OutputRises, StopsWriting};

use crate::{Command, Product, Stop};
use pgo_base::{OutsideError, Sink, Store};

/// Puts the output and writes the files, or stops at the halt of the product, behind its output.
pub fn deliver<C: Command, S: Store, O: Sink>(
    command: &C,
    store: &mut S,
    out: &mut O,
    product: Product,
) -> Result<(), Stop>
    requires { product.halted ≡ None → length product.files.items ≡ length (C.task command.now).writes }
    ensures store_tells { S.tells store.old → S.tells store.new }
    ensures out_tells { O.tells out.old → O.tells out.new }
    ensures stands { Delivered (made_of product) (C.task command.now).writes
        (world S.Store O.Sink store.old out.old) (world S.Store O.Sink store.new out.new) result }
    ensures causes { DeliveryCauses (C.task command.now).writes
        (world S.Store O.Sink store.old out.old) (world S.Store O.Sink store.new out.new) result }
{
    let Product {
        halted,
        output,
        files,
    } = product;
    put_output(out, &output)?;
    match halted {
        Some(line) => Err(Stop::Halted { line }),
        None => write_files(command, store, &files),
    }
}

// Puts the whole output at once.
fn put_output<O: Sink>(out: &mut O, bytes: &[u8]) -> Result<(), Stop>
    ensures tells { O.tells out.old → O.tells out.new }
    ensures left { O.tells out.old → OutputLeft bytes.now (O.bytes out.old) (O.bytes out.new) result }
    ensures rises { OutputRises (O.faults out.old) (O.faults out.new) result }
{
    match out.put(bytes) {
        Ok(()) => Ok(()),
        Err(OutsideError::Failed) => Err(Stop::Output),
        Err(OutsideError::NoMemory) => Err(Stop::NoMemory),
    }
}

// Writes the files in order.
fn write_files<C: Command, S: Store>(
    command: &C,
    store: &mut S,
    files: &[Vec<u8>],
) -> Result<(), Stop>
    requires { length files.now ≡ length (C.task command.now).writes }
    ensures tells { S.tells store.old → S.tells store.new }
    ensures left { S.tells store.old → FilesLeft (C.task command.now).writes (bytes_of_all files.now) (S.files store.old) (S.files store.new) result }
    ensures stops { StopsWriting (C.task command.now).writes (S.failures store.old) (S.failures store.new) result }
{
    let mut index = 0;
    'files: while let Some(name) = command.write_name(index) {
        match store.write_file(name, &files[index]) {
            Ok(()) => index += 1,
            Err(OutsideError::Failed) => return Err(Stop::Write { index }),
            Err(OutsideError::NoMemory) => return Err(Stop::NoMemory),
        }
    }
    Ok(())
}
