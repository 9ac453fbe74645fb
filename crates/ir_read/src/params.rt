//! The names of parameters that are written without one.

ghost use Rattle.std.specs.Prelude.{◌≡◌, cond, suc, decimal, IfOk};
ghost use Rattle.ir_grammar.specs.Functions as grammar;

use ir_tree::{Name, Seq, Ty, is_digits};
use itoa::Buffer;
use pgo_base::NoMemory;
use std::alloc::Global;

/// The name that is this number.
pub(crate) fn numbered_name(alloc: Global, n: usize) -> Result<Name, NoMemory>
    ensures { IfOk result (λ name. name ≡ decimal n) }
{
    let mut buffer = Buffer::new();
    Name::of(alloc, buffer.format(n).as_bytes())
}

fn is_numbered(name: &Name) -> bool
    ensures { result ≡ grammar.is_numbered name.now }
{
    name.bytes().is_empty() || is_digits(name.bytes())
}

/// The name of a parameter, where so many before it have none or a number.
fn name_of(alloc: Global, name: &Name, n: usize) -> Result<Name, NoMemory>
    ensures { IfOk result (λ found. found ≡ grammar.name_of n name.now) }
{
    if name.bytes().is_empty() {
        numbered_name(alloc, n)
    } else {
        name.copy(alloc)
    }
}

/// A count, with one more where this is true.
fn counted(n: usize, one_more: bool) -> Result<usize, NoMemory>
    ensures { IfOk result (λ m. m ≡ cond one_more (suc n) n) }
{
    if one_more {
        n.checked_add(1).ok_or(NoMemory)
    } else {
        Ok(n)
    }
}

/// The parameters with the names that they take, and how many have none or a number.
pub(crate) fn name_parameters(
    alloc: Global,
    list: &[(Ty, Name)],
) -> Result<(Seq<(Ty, Name)>, usize), NoMemory>
    ensures { IfOk result (λ found. found ≡ (grammar.named 0 list.now, grammar.numbered list.now)) }
{
    let mut named = Vec::with_capacity(alloc, list.len())?;
    let mut numbered = 0usize;
    for typed in list {
        let name = name_of(alloc, &typed.1, numbered)?;
        numbered = counted(numbered, is_numbered(&typed.1))?;
        named.push((typed.0, name))?;
    }
    Ok((Seq::of(named), numbered))
}
