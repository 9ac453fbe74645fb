// The lines that say why a module is not lowered.
ghost use Rattle.std.specs.Prelude.{◌≡◌, ◌++◌, IfOk, OnOk, codes, decimal};
ghost use Rattle.command_lower.specs.LowerLines.{OfModule, SaysLowering, lower_line};
ghost use Rattle.command_texts.specs.CheckLines.{limit_name};
ghost use Rattle.command_texts.specs.Program.{kind_word};

use command_lines::name_with;
use instr_lower::LowerError;
use ir_check::{Kind, LimitKind};
use pgo_base::NoMemory;
use pgo_shell::Refusal;
use push_text::{push, push_number};
use std::alloc::Global;

/// The refusal of a module that is not lowered.
pub(crate) fn refused_lowering(alloc: Global, name: &str, why: LowerError) -> Refusal
    ensures { SaysLowering name.now why result }
{
    match lower_line(alloc, name, &why) {
        Ok(line) => Refusal::Text { line },
        Err(NoMemory) => Refusal::NoMemory,
    }
}

fn lower_line(alloc: Global, name: &str, why: &LowerError) -> Result<Vec<u8>, NoMemory>
    ensures of { IfOk result (λ line. OfModule why.now) }
    ensures line { IfOk result (λ line. line.items ≡ lower_line name.now why.now) }
{
    match why {
        LowerError::WrongKind { found } => kind_line(alloc, name, *found),
        LowerError::HashDiffers { name, first, other } => hash_line(
            alloc,
            name.as_slice(),
            *first,
            *other,
        ),
        LowerError::CountDiffers { name, first, other } => count_line(
            alloc,
            name.as_slice(),
            *first,
            *other,
        ),
        LowerError::IndexPast { name, index, count } => index_line(
            alloc,
            name.as_slice(),
            *index,
            *count,
        ),
        LowerError::NoIncrement { name } => unit_with(alloc, name.as_slice(), b" has no increment"),
        LowerError::Limit { which, found } => limit_line(alloc, name, *which, *found),
        LowerError::NoMemory => Err(NoMemory),
    }
}

// The name of a unit, and what is said of it.
fn unit_with(alloc: Global, unit: &[u8], words: &[u8]) -> Result<Vec<u8>, NoMemory>
    ensures { IfOk result (λ line. line.items ≡ unit.now ++ words.now) }
{
    let mut line = Vec::new(alloc);
    push(&mut line, unit)?;
    push(&mut line, words)?;
    Ok(line)
}

fn kind_line(alloc: Global, name: &str, kind: Kind) -> Result<Vec<u8>, NoMemory>
    ensures { IfOk result (λ line. line.items ≡ name.now ++ codes ": wrong kind " ++ kind_word kind) }
{
    let mut line = name_with(alloc, name, b": wrong kind ")?;
    push(&mut line, kind_word(kind))?;
    Ok(line)
}

fn kind_word(kind: Kind) -> &'static [u8]
    ensures { result.now ≡ kind_word kind }
{
    match kind {
        Kind::Plain => b"plain",
        Kind::Counted => b"counted",
        Kind::Lowered => b"lowered",
    }
}

fn hash_line(alloc: Global, unit: &[u8], first: u64, other: u64) -> Result<Vec<u8>, NoMemory>
    ensures { IfOk result (λ line. line.items ≡ unit.now ++ codes " hash " ++ decimal first ++ codes " differs from " ++ decimal other) }
{
    let mut line = unit_with(alloc, unit, b" hash ")?;
    push_number(&mut line, first)?;
    push(&mut line, b" differs from ")?;
    push_number(&mut line, other)?;
    Ok(line)
}

fn count_line(alloc: Global, unit: &[u8], first: u32, other: u32) -> Result<Vec<u8>, NoMemory>
    ensures { IfOk result (λ line. line.items ≡ unit.now ++ codes " has " ++ decimal first ++ codes " and " ++ decimal other ++ codes " counters") }
{
    let mut line = unit_with(alloc, unit, b" has ")?;
    push_number(&mut line, u64::from(first))?;
    push(&mut line, b" and ")?;
    push_number(&mut line, u64::from(other))?;
    push(&mut line, b" counters")?;
    Ok(line)
}

fn index_line(alloc: Global, unit: &[u8], index: u32, count: u32) -> Result<Vec<u8>, NoMemory>
    ensures { IfOk result (λ line. line.items ≡ unit.now ++ codes " index " ++ decimal index ++ codes " of " ++ decimal count) }
{
    let mut line = unit_with(alloc, unit, b" index ")?;
    push_number(&mut line, u64::from(index))?;
    push(&mut line, b" of ")?;
    push_number(&mut line, u64::from(count))?;
    Ok(line)
}

fn limit_line(alloc: Global, name: &str, which: LimitKind, found: u64) -> Result<Vec<u8>, NoMemory>
    ensures { IfOk result (λ line. line.items ≡ name.now ++ codes ": limit " ++ limit_name which ++ codes " " ++ decimal found) }
{
    let mut line = name_with(alloc, name, b": limit ")?;
    push(&mut line, limit_name(which))?;
    push(&mut line, b" ")?;
    push_number(&mut line, found)?;
    Ok(line)
}

fn limit_name(which: LimitKind) -> &'static [u8]
    ensures { result.now ≡ limit_name which }
{
    match which {
        LimitKind::Functions => b"Functions",
        LimitKind::Globals => b"Globals",
        LimitKind::Edges => b"Edges",
        LimitKind::Registers => b"Registers",
        LimitKind::Object => b"Object",
        LimitKind::Cells => b"Cells",
        LimitKind::Sites => b"Sites",
        LimitKind::Counters => b"Counters",
    }
}
