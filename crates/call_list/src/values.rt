// Names and arguments.
ghost use Rattle.std.specs.Prelude.{◌≡◌, ◌<◌, ◌^◌, true, map, All, SomeIff};
ghost use Rattle.std.specs.Option.{option_copied, ok_or};
ghost use Rattle.std.specs.Str.Parse.{digits_value};
ghost use Rattle.ir_tree.specs.Spelling.{is_digits};
ghost use Rattle.call_list.specs.Form.{name_of, is_argument, has_minus, digits_of};
ghost use Rattle.call_list.specs.Meaning.{value_of, values_of, Means};
ghost use Rattle.call_list.specs.declared.line.LineError.TheVariants as fault;

use crate::line::LineError;
use ir_tree::{Name, Seq, Ty, is_digits, is_global_name};
use std::alloc::Global;
use std::str;

/// The name that a word has behind its `@`.
#[tactic(auto, unfolding(crate::specs::Form::name_of))]
pub fn name_in(word: &[u8]) -> Option<&[u8]>
    ensures { option_copied result ≡ name_of word.now }
{
    if word.is_empty() || word[0] != b'@' {
        return None;
    }
    let name = &word[1..];
    if is_global_name(name) {
        Some(name)
    } else {
        None
    }
}

// Whether a minus sign stands first, and what stands behind it.
fn sign_and_digits(word: &[u8]) -> (bool, &[u8])
    ensures minus { result.0 ≡ has_minus word.now }
    ensures digits { result.1.now ≡ digits_of word.now }
{
    if word.is_empty() || word[0] != b'-' {
        (false, word)
    } else {
        (true, &word[1..])
    }
}

/// Whether the word is digits, maybe behind a minus sign.
#[tactic(auto, unfolding(crate::specs::Form::is_argument))]
pub fn is_argument(word: &[u8]) -> bool
    ensures { result ≡ is_argument word.now }
{
    let (_, digits) = sign_and_digits(word);
    is_digits(digits)
}

// The number that the digits write, none from 2^64 on.
fn magnitude(digits: &[u8]) -> Option<u64>
    requires { is_digits digits.now ≡ true }
    ensures { SomeIff result (digits_value 10 digits.now < 2 ^ 64) (digits_value 10 digits.now) }
{
    match str::from_utf8(digits) {
        Ok(text) => text.parse::<u64>().ok(),
        Err(_) => None,
    }
}

/// An argument as a value of the type, none outside the range of its literals.
#[tactic(auto, unfolding(crate::specs::Meaning::value_of, crate::specs::Form::is_argument))]
pub fn value(ty: Ty, word: &[u8]) -> Option<u64>
    requires { is_argument word.now ≡ true }
    ensures { result ≡ value_of ty word.now }
{
    let (minus, digits) = sign_and_digits(word);
    let magnitude = magnitude(digits)?;
    ty.literal(minus, magnitude)
}

/// A value for each parameter, of the words in their order.
pub fn values(alloc: Global, params: &[(Ty, Name)], words: &[&[u8]]) -> Result<Seq<u64>, LineError>
    requires { All (λ w. is_argument w.now ≡ true) words.now }
    ensures { Means result (ok_or (values_of params.now (map (λ w. w.now) words.now)) fault.BadArgs) }
{
    if params.len() != words.len() {
        return Err(LineError::BadArgs);
    }
    let mut found = Vec::new(alloc);
    for (k, word) in words.iter().enumerate() {
        match value(params[k].0, word) {
            Some(x) => found.push(x)?,
            None => return Err(LineError::BadArgs),
        }
    }
    Ok(Seq::of(found))
}
