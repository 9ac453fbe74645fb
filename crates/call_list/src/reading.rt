// Reading a calls text, line by line.
ghost use Rattle.std.specs.Prelude.{◌≡◌, ◌≤◌, IfOk, length};
ghost use Rattle.ir_model.specs.Run.{IsValidCallList};
ghost use Rattle.ir_tree.specs.Functions.{numbered};
ghost use Rattle.call_list.specs.Reading.{meanings, Answers, items_of};
ghost use Rattle.call_list.specs.Walk.{at_line, found_none, walk, Walks};

use crate::calls::{CALLS_MOST, Calls};
use crate::error::CallsError;
use crate::line::{LineError, read_line};
use crate::lines::first_line;
use ir_check::Checked;
use ir_model::Call;
use ir_tree::Numbering;
use std::alloc::Global;

const TEXT_MOST: usize = 16_777_216;

fn at_line(error: LineError, line: u32) -> CallsError
    ensures { result ≡ at_line error line }
{
    match error {
        LineError::BadLine => CallsError::BadLine { line },
        LineError::NoFunction => CallsError::NoFunction { line },
        LineError::BadArgs => CallsError::BadArgs { line },
        LineError::NoMemory => CallsError::NoMemory,
    }
}

// The calls of the lines up to the first that has a fault.
fn calls_of(
    alloc: Global,
    module: &Checked,
    functions: &Numbering,
    text: &[u8],
) -> Result<Calls, CallsError>
    requires short { length text.now ≤ 16777216 }
    requires numbered { functions.now ≡ numbered module.now.functions }
    ensures { Walks result (walk 1 found_none (meanings module.now text.now)) }
{
    let mut calls = Calls::new(alloc);
    let mut line = 1u32;
    let mut rest = text;
    'lines: loop {
        let (here, behind) = first_line(rest);
        match read_line(alloc, module, functions, here) {
            Ok(call) => calls.add(call)?,
            Err(error) => return Err(at_line(error, line)),
        }
        match behind {
            Some(more) => rest = more,
            None => return Ok(calls),
        }
        line += 1;
    }
}

// The same, with the functions of the module by their numbers.
fn found_calls(alloc: Global, module: &Checked, text: &[u8]) -> Result<Calls, CallsError>
    requires { length text.now ≤ 16777216 }
    ensures { Walks result (walk 1 found_none (meanings module.now text.now)) }
{
    let functions = Numbering::of(alloc, module.module().functions.as_slice())?;
    calls_of(alloc, module, &functions, text)
}

/// The calls that the text makes, in order. Lines of blanks and lines that begin with `#` are
/// passed over, and each other line is `@`, the name of a defined function, and an argument for each
/// of its parameters, parted by blanks. The calls that are given are valid for the module.
pub fn read_calls(alloc: Global, module: &Checked, text: &[u8]) -> Result<Vec<Call>, CallsError>
    ensures answers { Answers (length text.now) (meanings module.now text.now) (items_of result) }
    ensures valid { IfOk result (λ calls. IsValidCallList module.now calls.items) }
{
    if text.len() > TEXT_MOST {
        return Err(CallsError::TextLimit { length: text.len() });
    }
    match found_calls(alloc, module, text) {
        Ok(Calls { count, kept }) => {
            if count as usize > CALLS_MOST {
                Err(CallsError::TooMany { found: count })
            } else {
                Ok(kept)
            }
        }
        Err(error) => Err(error),
    }
}
