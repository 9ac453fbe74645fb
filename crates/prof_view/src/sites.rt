// The sites of a record, among its value data.
ghost use Rattle.std.specs.Prelude.{◌≡◌, ◌≤◌, ◌+◌, [], ◌∷◌, nat_eq, if◌then◌else◌, false, length, IfOk};
ghost use Rattle.std.specs.Bool.{OnTrue};
ghost use Rattle.std.specs.List.{list_any};
ghost use Rattle.std.specs.Iterator.{YieldsFirst, item_count};
ghost use Rattle.prof_view.specs.Lines.{content};
ghost use Rattle.prof_view.specs.Times.{times, rest_behind};
ghost use Rattle.prof_view.specs.Words.{all_digits};
ghost use Rattle.prof_view.specs.Grammar.{next_is, site, unseen_kind, kind_sites, kinds, value_data, values_ahead, sites_most};
ghost use Rattle.prof_view.specs.Reads.{Reads, Skips};

use crate::fault::Fault;
use crate::fields::number_line_within;
use crate::lines::{front, next_content, skip_line_feeds};
use crate::targets::{SiteView, site};
use crate::words::all_digits;
use std::marker::Model;

/// The sites of a record, in order. Contracts see the list of those that are left.
#[derive(Drop)]
pub struct SiteLines<'a> {
    rest: &'a [u8],
    left: u32,
}

impl<'a> Model for SiteLines<'a> {
    ghost use Rattle.std.specs.Prelude.{ℕ, List};
    ghost use Rattle.prof_view.specs.Views.{sites_at};

    ghost Value = { List (List (List ℕ × ℕ)) };

    ghost view = { λ s. sites_at s.left s.rest.now };
}

impl<'a> SiteLines<'a> {
    // The same sites.
    pub(crate) fn again(&self) -> SiteLines<'a>
        ensures { result ≡ self.now }
    {
        SiteLines {
            rest: self.rest,
            left: self.left,
        }
    }
}

impl<'a> Iterator for SiteLines<'a> {
    type Item = SiteView<'a>;

    ghost next_gives = { YieldsFirst (λ s. s) };

    ghost remaining = { item_count (λ s. s) };

    #[tactic(auto, using(crate::proofs::TimesLemmas::value_first, crate::proofs::TimesLemmas::value_none), unfolding(crate::specs::Views::sites_at))]
    fn next(&mut self) -> Option<SiteView<'a>> {
        if self.left == 0 {
            return None;
        }
        match site(self.rest) {
            Ok((found, rest)) => {
                self.rest = rest;
                self.left -= 1;
                Some(found)
            }
            Err(_) => None,
        }
    }
}

// No sites.
#[tactic(auto, unfolding(crate::specs::Views::sites_at))]
fn no_sites(text: &[u8]) -> SiteLines<'_>
    ensures { result ≡ [] }
{
    SiteLines {
        rest: text,
        left: 0,
    }
}

// The text behind so many sites.
#[tactic(auto, using(crate::proofs::TimesLemmas::rest_first, crate::proofs::TimesLemmas::rest_none))]
fn skip_sites(text: &[u8], count: u32) -> Result<&[u8], Fault>
    ensures { Skips result (rest_behind site count (content text.now)) }
{
    let mut rest = text;
    let mut left = count;
    while left > 0 {
        let (_, after) = site(rest)?;
        rest = after;
        left -= 1;
    }
    Ok(rest)
}

#[tactic(auto, using(crate::proofs::TimesLemmas::times_some, crate::proofs::TimesLemmas::times_none, crate::proofs::TimesLemmas::few_values), unfolding(crate::specs::Views::sites_at))]
fn sites(text: &[u8], count: u32) -> Result<(SiteLines<'_>, &[u8]), Fault>
    ensures reads { Reads (λ s. s) result text.now (times site count).read }
    ensures few { IfOk result (λ p. length p.0 ≤ count) }
{
    let rest = skip_sites(text, count)?;
    let sites = SiteLines {
        rest: text,
        left: count,
    };
    Ok((sites, rest))
}

// The sites of a kind, behind its number.
#[tactic(auto, unfolding(crate::specs::Grammar::kind_sites))]
fn kind_sites(text: &[u8]) -> Result<(SiteLines<'_>, &[u8]), Fault>
    ensures reads { Reads (λ s. s) result text.now kind_sites.read }
    ensures few { IfOk result (λ p. length p.0 ≤ sites_most) }
{
    let (count, rest) = number_line_within(text, 0, 65_536)?;
    sites(rest, count as u32)
}

// Whether the kind is among those that were seen.
fn is_seen(seen: &[u64], kind: u64) -> bool
    ensures { result ≡ list_any (λ k. nat_eq k kind) seen.now }
{
    seen.iter().any(|k| *k == kind)
}

// A kind that was not seen.
#[tactic(auto, unfolding(crate::specs::Grammar::unseen_kind))]
fn unseen_kind<'a>(text: &'a [u8], seen: &[u64]) -> Result<(u64, &'a [u8]), Fault>
    ensures { Reads (λ k. k) result text.now (unseen_kind seen.now).read }
{
    let (kind, rest) = number_line_within(text, 0, 2)?;
    if is_seen(seen, kind) {
        Err(Fault { left: rest.len() })
    } else {
        Ok((kind, rest))
    }
}

// The sites of kind 0, and those of the other kinds where this is another.
fn kept<'a>(kind: u64, sites: SiteLines<'a>, others: SiteLines<'a>) -> SiteLines<'a>
    ensures { result ≡ (if nat_eq kind 0 then sites.entry else others.entry) }
{
    if kind == 0 { sites } else { others }
}

// So many kinds, of which none was seen. The sites of kind 0 are kept.
#[tactic(auto, using(crate::proofs::KindLemmas::kinds_zero, crate::proofs::KindLemmas::kinds_no_kind, crate::proofs::KindLemmas::kinds_no_sites, crate::proofs::KindLemmas::kinds_no_more, crate::proofs::KindLemmas::kinds_some))]
#[cycle(kinds)]
fn kinds<'a>(text: &'a [u8], seen: &[u64], left: u64) -> Result<(SiteLines<'a>, &'a [u8]), Fault>
    requires { length seen.now + left ≤ 3 }
    ensures reads { Reads (λ s. s) result text.now (kinds seen.now left).read }
    ensures few { IfOk result (λ p. length p.0 ≤ sites_most) }
{
    if left == 0 {
        return Ok((no_sites(text), text));
    }
    let (kind, rest) = unseen_kind(text, seen)?;
    let (sites, rest) = kind_sites(rest)?;
    let (others, rest) = more_kinds(rest, kind, seen, left - 1)?;
    Ok((kept(kind, sites, others), rest))
}

// So many kinds behind this one.
#[tactic(auto, using(crate::proofs::KindLemmas::kinds_zero))]
#[cycle(kinds)]
fn more_kinds<'a>(
    text: &'a [u8],
    kind: u64,
    seen: &[u64],
    left: u64,
) -> Result<(SiteLines<'a>, &'a [u8]), Fault>
    requires { length seen.now + left ≤ 2 }
    ensures reads { Reads (λ s. s) result text.now (kinds (kind ∷ seen.now) left).read }
    ensures few { IfOk result (λ p. length p.0 ≤ sites_most) }
{
    match seen {
        [] => kinds(text, &[kind], left),
        [first] => kinds(text, &[kind, *first], left),
        _ => Ok((no_sites(text), text)),
    }
}

#[tactic(auto, unfolding(crate::specs::Grammar::value_data))]
fn value_data(text: &[u8]) -> Result<(SiteLines<'_>, &[u8]), Fault>
    ensures reads { Reads (λ s. s) result text.now value_data.read }
    ensures few { IfOk result (λ p. length p.0 ≤ sites_most) }
{
    let (count, rest) = number_line_within(text, 1, 3)?;
    kinds(rest, &[], count)
}

// Whether digits alone are the next line.
fn digits_ahead(text: &[u8]) -> bool
    ensures { result ≡ next_is (all_digits 10) (content text.now) }
{
    if begins_otherwise(text) {
        return false;
    }
    match next_content(text) {
        Some((line, _)) => all_digits(line),
        None => false,
    }
}

// Whether the next line is seen at once to begin with no digit.
fn begins_otherwise(text: &[u8]) -> bool
    ensures { OnTrue result (next_is (all_digits 10) (content text.now) ≡ false) }
{
    match front(text) {
        Some(byte) => !byte.is_ascii_digit(),
        None => false,
    }
}

/// The sites of the value data, if they are ahead, and else none.
#[tactic(auto, unfolding(crate::specs::Grammar::values_ahead))]
pub(crate) fn values_ahead(text: &[u8]) -> Result<(SiteLines<'_>, &[u8]), Fault>
    ensures reads { Reads (λ s. s) result text.now values_ahead.read }
    ensures few { IfOk result (λ p. length p.0 ≤ sites_most) }
{
    let text = skip_line_feeds(text);
    if digits_ahead(text) {
        value_data(text)
    } else {
        Ok((no_sites(text), text))
    }
}
