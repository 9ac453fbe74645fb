// The targets of a site.
ghost use Rattle.std.specs.Prelude.{◌≡◌};
ghost use Rattle.std.specs.Iterator.{YieldsFirstBy, item_count};
ghost use Rattle.prof_view.specs.Lines.{content};
ghost use Rattle.prof_view.specs.Times.{rest_behind};
ghost use Rattle.prof_view.specs.Grammar.{site, target_line};
ghost use Rattle.prof_view.specs.Reads.{Reads, Skips};

use crate::fault::Fault;
use crate::fields::{number_line, target_line};
use std::marker::Model;

/// A site of an indirect call. Contracts see the list of its targets, each a name and a count.
#[derive(Drop)]
pub struct SiteView<'a> {
    rest: &'a [u8],
    left: u64,
}

impl<'a> Model for SiteView<'a> {
    ghost use Rattle.std.specs.Prelude.{ℕ, List};
    ghost use Rattle.prof_view.specs.Views.{targets_at};

    ghost Value = { List (List ℕ × ℕ) };

    ghost view = { λ s. targets_at s.left s.rest.now };
}

impl<'a> SiteView<'a> {
    /// The names of the targets, as slices of the text, and their counts, in order. Takes no memory.
    pub fn targets(&self) -> TargetLines<'a>
        ensures { result ≡ self.now }
    {
        TargetLines {
            rest: self.rest,
            left: self.left,
        }
    }
}

/// The targets of a site, in order. Contracts see the list of those that are left.
#[derive(Drop)]
pub struct TargetLines<'a> {
    rest: &'a [u8],
    left: u64,
}

impl<'a> Model for TargetLines<'a> {
    ghost use Rattle.std.specs.Prelude.{ℕ, List};
    ghost use Rattle.prof_view.specs.Views.{targets_at};

    ghost Value = { List (List ℕ × ℕ) };

    ghost view = { λ s. targets_at s.left s.rest.now };
}

impl<'a> Iterator for TargetLines<'a> {
    type Item = (&'a [u8], u64);

    ghost next_gives = { YieldsFirstBy (λ p. (p.0.now, p.1)) (λ s. s) };

    ghost remaining = { item_count (λ s. s) };

    #[tactic(auto, using(crate::proofs::TimesLemmas::value_first, crate::proofs::TimesLemmas::value_none), unfolding(crate::specs::Views::targets_at))]
    fn next(&mut self) -> Option<(&'a [u8], u64)> {
        if self.left == 0 {
            return None;
        }
        match target_line(self.rest) {
            Ok((target, rest)) => {
                self.rest = rest;
                self.left -= 1;
                Some(target)
            }
            Err(_) => None,
        }
    }
}

// The text behind so many targets.
#[tactic(auto, using(crate::proofs::TimesLemmas::rest_first, crate::proofs::TimesLemmas::rest_none))]
fn skip_targets(text: &[u8], count: u64) -> Result<&[u8], Fault>
    ensures { Skips result (rest_behind target_line count (content text.now)) }
{
    let mut rest = text;
    let mut left = count;
    while left > 0 {
        let (_, after) = target_line(rest)?;
        rest = after;
        left -= 1;
    }
    Ok(rest)
}

#[tactic(auto, using(crate::proofs::TimesLemmas::times_some, crate::proofs::TimesLemmas::times_none), unfolding(crate::specs::Views::targets_at, crate::specs::Grammar::site))]
/// A site: the number of its targets, and so many of them.
pub(crate) fn site(text: &[u8]) -> Result<(SiteView<'_>, &[u8]), Fault>
    ensures { Reads (λ s. s) result text.now site.read }
{
    let (count, targets) = number_line(text)?;
    let rest = skip_targets(targets, count)?;
    let site = SiteView {
        rest: targets,
        left: count,
    };
    Ok((site, rest))
}
