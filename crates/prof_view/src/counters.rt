// The counters of a record.
ghost use Rattle.std.specs.Prelude.{◌≡◌, ◌≤◌, length, IfOk};
ghost use Rattle.std.specs.Iterator.{YieldsFirst, item_count};
ghost use Rattle.prof_view.specs.Lines.{content};
ghost use Rattle.prof_view.specs.Times.{times, rest_behind};
ghost use Rattle.prof_view.specs.Grammar.{number_line};
ghost use Rattle.prof_view.specs.Reads.{Reads, Skips};

use crate::fault::Fault;
use crate::fields::number_line;
use crate::lines::{skip_comments, skip_written};
use std::marker::Model;

/// The counters of a record, in order. Contracts see the list of those that are left.
#[derive(Drop)]
pub struct CounterLines<'a> {
    rest: &'a [u8],
    left: u32,
}

impl<'a> Model for CounterLines<'a> {
    ghost use Rattle.std.specs.Prelude.{ℕ, List};
    ghost use Rattle.prof_view.specs.Views.{counters_at};

    ghost Value = { List ℕ };

    ghost view = { λ s. counters_at s.left s.rest.now };
}

impl<'a> CounterLines<'a> {
    // The same counters.
    pub(crate) fn again(&self) -> CounterLines<'a>
        ensures { result ≡ self.now }
    {
        CounterLines {
            rest: self.rest,
            left: self.left,
        }
    }
}

impl<'a> Iterator for CounterLines<'a> {
    type Item = u64;

    ghost next_gives = { YieldsFirst (λ s. s) };

    ghost remaining = { item_count (λ s. s) };

    #[inline(always)]
    #[tactic(auto, using(crate::proofs::TimesLemmas::value_first, crate::proofs::TimesLemmas::value_none), unfolding(crate::specs::Views::counters_at))]
    fn next(&mut self) -> Option<u64> {
        if self.left == 0 {
            return None;
        }
        match number_line(self.rest) {
            Ok((number, rest)) => {
                self.rest = rest;
                self.left -= 1;
                Some(number)
            }
            Err(_) => None,
        }
    }
}

// The text behind so many numbers.
#[tactic(auto, using(crate::proofs::TimesLemmas::rest_first, crate::proofs::TimesLemmas::rest_none))]
fn skip_numbers(text: &[u8], count: u32) -> Result<&[u8], Fault>
    ensures { Skips result (rest_behind number_line count (content text.now)) }
{
    let mut rest = text;
    let mut left = count;
    while left > 0 {
        let (_, after) = number_line(rest)?;
        rest = after;
        left -= 1;
    }
    Ok(rest)
}

// The text behind the comments above the counters.
#[inline(always)]
#[tactic(auto, using(crate::proofs::FrontLemmas::counters_comment))]
fn behind_comments(text: &[u8]) -> &[u8]
    ensures { content result.now ≡ content text.now }
{
    skip_comments(skip_written(text, b"# Counter Values:\n"))
}

/// So many counters.
#[tactic(auto, using(crate::proofs::TimesLemmas::times_some, crate::proofs::TimesLemmas::times_none, crate::proofs::TimesLemmas::few_values), unfolding(crate::specs::Views::counters_at))]
pub(crate) fn counters(text: &[u8], count: u32) -> Result<(CounterLines<'_>, &[u8]), Fault>
    ensures reads { Reads (λ c. c) result text.now (times number_line count).read }
    ensures few { IfOk result (λ p. length p.0 ≤ count) }
{
    let first = behind_comments(text);
    let rest = skip_numbers(first, count)?;
    let counters = CounterLines {
        rest: first,
        left: count,
    };
    Ok((counters, rest))
}
