// What one line of a calls text means.
ghost use Rattle.std.specs.Prelude.{◌≡◌, true, map, All};
ghost use Rattle.std.specs.List.{list_all};
ghost use Rattle.std.specs.Str.Lines.{strip_carriage_return};
ghost use Rattle.call_list.specs.declared.line.LineError.TheVariants as fault;
ghost use Rattle.call_list.specs.Lines.{is_blank};
ghost use Rattle.call_list.specs.Form.{is_passed, is_argument};
ghost use Rattle.ir_tree.specs.Functions.{numbered, function_number};
ghost use Rattle.call_list.specs.Meaning.{call_at, meaning, Means};

use crate::lines::{is_blank, words};
use crate::values::{is_argument, name_in, values};
use ir_check::{Checked, accepted_are_small};
use ir_model::Call;
use ir_tree::Numbering;
use std::alloc::{AllocError, AllocFailed, Global};

/// Why a line gives neither a call nor nothing.
#[derive(Clone, Copy, Debug, PartialEq, Eq, Drop)]
pub enum LineError {
    BadLine,
    NoFunction,
    BadArgs,
    NoMemory,
}

impl From<AllocError> for LineError {
    ghost from_gives = { λ _ e. e ≡ fault.NoMemory };

    fn from(_: AllocError) -> LineError {
        LineError::NoMemory
    }
}

impl<T: Drop> From<AllocFailed<T>> for LineError {
    ghost from_gives = { λ _ e. e ≡ fault.NoMemory };

    fn from(_: AllocFailed<T>) -> LineError {
        LineError::NoMemory
    }
}

fn all_blank(line: &[u8]) -> bool
    ensures { result ≡ list_all is_blank line.now }
{
    line.iter().all(|byte| is_blank(*byte))
}

// Whether the line is passed over.
#[tactic(auto, unfolding(crate::specs::Form::is_passed))]
fn is_passed(line: &[u8]) -> bool
    ensures { result ≡ is_passed line.now }
{
    (!line.is_empty() && line[0] == b'#') || all_blank(line)
}

// The line without a carriage return at its end.
fn without_return(line: &[u8]) -> &[u8]
    ensures { result.now ≡ strip_carriage_return line.now }
{
    if !line.is_empty() && line[line.len() - 1] == b'\r' {
        &line[..line.len() - 1]
    } else {
        line
    }
}

fn all_arguments(words: &[&[u8]]) -> bool
    ensures value { result ≡ list_all (λ w. is_argument w.now) words.now }
    ensures each { result ≡ true → All (λ w. is_argument w.now ≡ true) words.now }
{
    words.iter().all(|word| is_argument(word))
}

// Whether each word is an argument.
fn are_arguments(words: &[&[u8]]) -> bool
    ensures value { result ≡ list_all is_argument (map (λ w. w.now) words.now) }
    ensures each { result ≡ true → All (λ w. is_argument w.now ≡ true) words.now }
{
    all_arguments(words)
}

// The number of the function of this name.
fn number_of(module: &Checked, functions: &Numbering, name: &[u8]) -> Option<u32>
    requires { functions.now ≡ numbered module.now.functions }
    ensures { result ≡ function_number module.now name.now }
{
    // an accepted module has at most 65,540 functions
    accepted_are_small();
    let _accepted = module.module();
    let place = functions.find(name)?;
    let number = place as u32;
    Some(number)
}

// The call of the function of this name.
fn call(
    alloc: Global,
    module: &Checked,
    functions: &Numbering,
    name: &[u8],
    arguments: &[&[u8]],
) -> Result<Option<Call>, LineError>
    requires numbered { functions.now ≡ numbered module.now.functions }
    requires arguments { All (λ w. is_argument w.now ≡ true) arguments.now }
    ensures { Means result (call_at module.now (function_number module.now name.now) (map (λ w. w.now) arguments.now)) }
{
    let Some(number) = number_of(module, functions, name) else {
        return Err(LineError::NoFunction);
    };
    let Some(function) = functions.get(number as usize) else {
        return Err(LineError::NoFunction);
    };
    if function.is_declared() {
        return Err(LineError::NoFunction);
    }
    let args = values(alloc, function.params.as_slice(), arguments)?;
    Ok(Some(Call {
        function: number,
        args,
    }))
}

/// What the line means for the module: nothing, a call, or a fault.
#[tactic(auto, unfolding(crate::specs::Meaning::meaning, crate::specs::Form::form_of))]
pub fn read_line(
    alloc: Global,
    module: &Checked,
    functions: &Numbering,
    line: &[u8],
) -> Result<Option<Call>, LineError>
    requires { functions.now ≡ numbered module.now.functions }
    ensures { Means result (meaning module.now line.now) }
{
    if is_passed(line) {
        return Ok(None);
    }
    let words = words(alloc, without_return(line))?;
    let words = words.as_slice();
    if words.is_empty() {
        return Err(LineError::BadLine);
    }
    let arguments = &words[1..];
    match name_in(words[0]) {
        Some(name) => {
            if are_arguments(arguments) {
                call(alloc, module, functions, name, arguments)
            } else {
                Err(LineError::BadLine)
            }
        }
        None => Err(LineError::BadLine),
    }
}
