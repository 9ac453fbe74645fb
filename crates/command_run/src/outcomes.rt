// The outcomes of calls.
ghost use Rattle.std.specs.Prelude.{◌≡◌, ◌≤◌, IfOk, length};
ghost use Rattle.std.specs.Option.{option_map};
ghost use Rattle.pgo_shell.specs.Product.{bytes_of};
ghost use Rattle.command_run.specs.Outcomes.{or_else, unreturned};
ghost use Rattle.command_run.specs.Told.{first_told, told_from};

use call_list::{outcome, trap_text};
use command_lines::name_with_number;
use ir_model::{Call, CallResult, End};
use ir_tree::Numbering;
use pgo_base::NoMemory;
use std::alloc::Global;

/// The outcomes of the calls, in order, and what is said of the first that did not return.
pub fn outcomes(
    alloc: Global,
    functions: &Numbering,
    calls: &[Call],
    results: &[CallResult],
) -> Result<(Option<Vec<u8>>, Vec<u8>), NoMemory>
    requires few { length calls.now ≤ 16384 }
    requires results { length results.now ≡ length calls.now }
    ensures halts { IfOk result (λ made. option_map bytes_of made.0 ≡ first_told 0 results.now) }
    ensures shows { IfOk result (λ made. made.1.items ≡ told_from functions.now 0 calls.now results.now) }
{
    let mut output = Vec::new(alloc);
    let mut halted = None;
    for (number, call) in calls.iter().enumerate() {
        let ended = &results[number];
        let text = outcome(alloc, functions, number as u32, call, ended)?;
        output.extend_from_slice(text.as_slice())?;
        halted = first_unreturned(alloc, halted, number as u32, ended.end)?;
    }
    Ok((halted, output))
}

/// What is said of the first call that did not return, after one more call.
pub fn first_unreturned(
    alloc: Global,
    halted: Option<Vec<u8>>,
    number: u32,
    end: End,
) -> Result<Option<Vec<u8>>, NoMemory>
    ensures { IfOk result (λ line. option_map bytes_of line ≡ or_else (option_map bytes_of halted) (unreturned number end)) }
{
    match halted {
        Some(line) => Ok(Some(line)),
        None => unreturned(alloc, number, end),
    }
}

// What is said of a call that did not return.
fn unreturned(alloc: Global, number: u32, end: End) -> Result<Option<Vec<u8>>, NoMemory>
    ensures { IfOk result (λ line. option_map bytes_of line ≡ unreturned number end) }
{
    match end {
        End::Returned(_) => Ok(None),
        End::Trapped(kind) => {
            let mut line = name_with_number(alloc, "", b"call ", number)?;
            line.extend_from_slice(b" trapped ")?;
            line.extend_from_slice(trap_text(kind))?;
            Ok(Some(line))
        }
        End::StepsSpent => {
            let mut line = name_with_number(alloc, "", b"call ", number)?;
            line.extend_from_slice(b" steps spent")?;
            Ok(Some(line))
        }
    }
}
