// Reading all files of a command.
ghost use Rattle.std.specs.Prelude.{◌≡◌, IfOk, Some, length, slice_get};
ghost use Rattle.pgo_base.specs.Outside.{SameFiles};
ghost use Rattle.pgo_shell.specs.Product.{bytes_of_all};
ghost use Rattle.pgo_shell.specs.Shell.{AreRead, text_of};
ghost use Rattle.pgo_shell.specs.Steps.{StopsReading};

use crate::{Command, Stop};
use pgo_base::{OutsideError, Store};
use std::alloc::Global;

/// The texts of the files that the command reads, in order. No file changes.
pub fn read_all<C: Command, S: Store>(
    alloc: Global,
    command: &C,
    store: &mut S,
) -> Result<Vec<Vec<u8>>, Stop>
    ensures tells { S.tells store.old → S.tells store.new }
    ensures same { S.tells store.old → SameFiles (S.files store.old) (S.files store.new) }
    ensures texts { S.tells store.old → IfOk result (λ texts. AreRead (S.files store.old) (C.task command.now).reads (bytes_of_all texts.items)) }
    ensures count { IfOk result (λ texts. length texts.items ≡ length (C.task command.now).reads) }
    ensures stops { StopsReading (C.task command.now).reads (S.failures store.old) (S.failures store.new) result }
{
    let mut texts = Vec::new(alloc);
    'files: while let Some(name) = command.read_name(texts.len()) {
        let text = read_one(alloc, store, name, texts.len())?;
        texts.push(text)?;
    }
    Ok(texts)
}

// The text of the named file, which stands at this place of the names.
fn read_one<S: Store>(
    alloc: Global,
    store: &mut S,
    name: &str,
    index: usize,
) -> Result<Vec<u8>, Stop>
    ensures tells { S.tells store.old → S.tells store.new }
    ensures same { S.tells store.old → SameFiles (S.files store.old) (S.files store.new) }
    ensures text { S.tells store.old → IfOk result (λ text. text_of (S.files store.old) name.now ≡ Some text.items) }
    ensures stops { (names : _) → slice_get names index ≡ Some name.now → StopsReading names (S.failures store.old) (S.failures store.new) result }
{
    match store.read_file(alloc, name) {
        Ok(text) => Ok(text),
        Err(OutsideError::Failed) => Err(Stop::Read { index }),
        Err(OutsideError::NoMemory) => Err(Stop::NoMemory),
    }
}
