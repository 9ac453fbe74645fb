// Lines of one field each.
ghost use Rattle.std.specs.Prelude.{◌≡◌, ◌≤◌, IfOk};
ghost use Rattle.prof_view.specs.Grammar.{header_line, name_line, hash_line, number_line, number_line_within, target_line};
ghost use Rattle.prof_view.specs.Reads.{Reads};

use crate::fault::Fault;
use crate::lines::{next_line, skip_comments, skip_written};
use crate::numbers::{decimal, hash};
use crate::plain::{long_number, plain_name, plain_number};
use crate::words::{header_word, name, target};

#[tactic(auto, unfolding(crate::specs::Grammar::header_line))]
pub(crate) fn header_line(text: &[u8]) -> Result<(bool, &[u8]), Fault>
    ensures { Reads (λ x. x) result text.now header_line.read }
{
    let (line, rest) = next_line(text)?;
    match header_word(line) {
        Some(flag) => Ok((flag, rest)),
        None => Err(Fault { left: rest.len() }),
    }
}

#[tactic(auto, unfolding(crate::specs::Grammar::name_line))]
pub(crate) fn name_line(text: &[u8]) -> Result<(&[u8], &[u8]), Fault>
    ensures { Reads (λ x. x.now) result text.now name_line.read }
{
    if let Some(found) = plain_name(text) {
        return Ok(found);
    }
    let (line, rest) = next_line(text)?;
    match name(line) {
        Some(name) => Ok((name, rest)),
        None => Err(Fault { left: rest.len() }),
    }
}

/// The hash of a record.
#[tactic(auto, using(crate::proofs::PlainLemmas::plain_hash, crate::proofs::FrontLemmas::hash_comment))]
pub(crate) fn hash_line(text: &[u8]) -> Result<(u64, &[u8]), Fault>
    ensures { Reads (λ x. x) result text.now hash_line.read }
{
    let first = skip_comments(skip_written(text, b"# Func Hash:\n"));
    if let Some(found) = plain_number(first) {
        return Ok(found);
    }
    match long_number(first) {
        Some(found) => Ok(found),
        None => any_hash_line(first),
    }
}

// A hash, in whatever form.
#[inline(never)]
#[tactic(auto, unfolding(crate::specs::Grammar::hash_line))]
fn any_hash_line(text: &[u8]) -> Result<(u64, &[u8]), Fault>
    ensures { Reads (λ x. x) result text.now hash_line.read }
{
    let (line, rest) = next_line(text)?;
    match hash(line) {
        Some(hash) => Ok((hash, rest)),
        None => Err(Fault { left: rest.len() }),
    }
}

/// A number.
#[inline(always)]
pub(crate) fn number_line(text: &[u8]) -> Result<(u64, &[u8]), Fault>
    ensures { Reads (λ x. x) result text.now number_line.read }
{
    match plain_number(text) {
        Some(found) => Ok(found),
        None => any_number_line(text),
    }
}

// A number, in whatever form.
#[inline(never)]
#[tactic(auto, unfolding(crate::specs::Grammar::number_line))]
fn any_number_line(text: &[u8]) -> Result<(u64, &[u8]), Fault>
    ensures { Reads (λ x. x) result text.now number_line.read }
{
    let (line, rest) = next_line(text)?;
    match decimal(line) {
        Some(number) => Ok((number, rest)),
        None => Err(Fault { left: rest.len() }),
    }
}

/// A number from `least` to `most`.
#[tactic(auto, using(crate::proofs::WithinLemmas::within_none, crate::proofs::WithinLemmas::within_some, crate::proofs::WithinLemmas::within_outside))]
pub(crate) fn number_line_within(text: &[u8], least: u64, most: u64) -> Result<(u64, &[u8]), Fault>
    ensures reads { Reads (λ x. x) result text.now (number_line_within least most).read }
    ensures within { IfOk result (λ p. p.0 ≤ most) }
{
    let (number, rest) = number_line(skip_comments(text))?;
    if least <= number && number <= most {
        Ok((number, rest))
    } else {
        Err(Fault { left: rest.len() })
    }
}

/// A target's name and its count.
#[tactic(auto, unfolding(crate::specs::Grammar::target_line))]
pub(crate) fn target_line(text: &[u8]) -> Result<((&[u8], u64), &[u8]), Fault>
    ensures { Reads (λ p. (p.0.now, p.1)) result text.now target_line.read }
{
    let (line, rest) = next_line(text)?;
    match target(line) {
        Some(found) => Ok((found, rest)),
        None => Err(Fault { left: rest.len() }),
    }
}
