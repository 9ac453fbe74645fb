// The lines that say why a module is not accepted.
ghost use Rattle.std.specs.Prelude.{◌≡◌, ◌++◌, IfOk, OnOk};
ghost use Rattle.command_texts.specs.CheckLines.{OfModule, check_line, limit_name, place_text};
ghost use Rattle.command_texts.specs.Says.{SaysCheck};

use command_lines::{name_with, name_with_number};
use ir_check::{CheckError, LimitKind, Place};
use pgo_base::NoMemory;
use pgo_shell::Refusal;
use push_text::{push, push_number};
use std::alloc::Global;

/// The refusal of a module that is not accepted.
pub(crate) fn refused_module(alloc: Global, name: &str, why: CheckError) -> Refusal
    ensures { SaysCheck name.now why result }
{
    match check_line(alloc, name, why) {
        Ok(line) => Refusal::Text { line },
        Err(NoMemory) => Refusal::NoMemory,
    }
}

fn check_line(alloc: Global, name: &str, why: CheckError) -> Result<Vec<u8>, NoMemory>
    ensures of { IfOk result (λ line. OfModule why) }
    ensures line { IfOk result (λ line. line.items ≡ check_line name.now why) }
{
    match why {
        CheckError::Limit { which, found } => {
            let mut line = name_with(alloc, name, b": limit ")?;
            push(&mut line, limit_name(which))?;
            push(&mut line, b" ")?;
            push_number(&mut line, found)?;
            Ok(line)
        }
        CheckError::Broken { rule, place } => {
            let mut line = name_with_number(alloc, name, b": rule ", u32::from(rule))?;
            push(&mut line, b" at ")?;
            push_place(&mut line, place)?;
            Ok(line)
        }
        CheckError::NoMemory => Err(NoMemory),
    }
}

fn limit_name(which: LimitKind) -> &'static [u8]
    ensures { result.now ≡ limit_name which }
{
    match which {
        LimitKind::Functions => b"Functions",
        LimitKind::Globals => b"Globals",
        LimitKind::Edges => b"Edges",
        LimitKind::Registers => b"Registers",
        LimitKind::Object => b"Object",
        LimitKind::Cells => b"Cells",
        LimitKind::Sites => b"Sites",
        LimitKind::Counters => b"Counters",
    }
}

fn push_place(line: &mut Vec<u8>, place: Place) -> Result<(), NoMemory>
    ensures { OnOk result (line.new.items ≡ line.old.items ++ place_text place) }
{
    push_number(line, u64::from(place.function))?;
    push(line, b" ")?;
    push_number(line, u64::from(place.block))?;
    push(line, b" ")?;
    push_number(line, place.item)
}
