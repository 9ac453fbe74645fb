// Lines that say why a command is refused.
ghost use Rattle.std.specs.Prelude.{◌≡◌, ◌++◌, IfOk, decimal};
ghost use Rattle.command_lines.specs.Says.{RefusedWith};

use pgo_base::NoMemory;
use pgo_shell::Refusal;
use push_text::{push, push_number};
use std::alloc::Global;

/// A refusal that says this of a name.
pub fn refused(alloc: Global, name: &str, words: &[u8]) -> Refusal
    ensures { RefusedWith (name.now ++ words.now) result }
{
    match name_with(alloc, name, words) {
        Ok(line) => Refusal::Text { line },
        Err(NoMemory) => Refusal::NoMemory,
    }
}

/// A refusal that says this of a name, and a number behind it.
pub fn refused_at(alloc: Global, name: &str, words: &[u8], number: u32) -> Refusal
    ensures { RefusedWith (name.now ++ words.now ++ decimal number) result }
{
    match name_with_number(alloc, name, words, number) {
        Ok(line) => Refusal::Text { line },
        Err(NoMemory) => Refusal::NoMemory,
    }
}

/// A name and what is said of it.
pub fn name_with(alloc: Global, name: &str, words: &[u8]) -> Result<Vec<u8>, NoMemory>
    ensures { IfOk result (λ line. line.items ≡ name.now ++ words.now) }
{
    let mut line = Vec::new(alloc);
    push(&mut line, name.as_bytes())?;
    push(&mut line, words)?;
    Ok(line)
}

/// The same with a number behind it.
pub fn name_with_number(
    alloc: Global,
    name: &str,
    words: &[u8],
    number: u32,
) -> Result<Vec<u8>, NoMemory>
    ensures { IfOk result (λ line. line.items ≡ name.now ++ words.now ++ decimal number) }
{
    let mut line = name_with(alloc, name, words)?;
    push_number(&mut line, u64::from(number))?;
    Ok(line)
}
