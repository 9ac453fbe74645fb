// A record of a profile text.
ghost use Rattle.std.specs.Prelude.{◌≡◌, ◌≤◌, length, IfOk};
ghost use Rattle.prof_view.specs.Grammar.{head, record_ahead, counters_most, sites_most};
ghost use Rattle.prof_view.specs.Reads.{Reads};

use crate::counters::{CounterLines, counters};
use crate::fault::Fault;
use crate::fields::{hash_line, name_line, number_line_within};
use crate::lines::skip_written;
use crate::sites::{SiteLines, values_ahead};
use std::marker::Model;

/// The record of a function: its name, a slice of the text, and its hash; its counters and sites are
/// read from the text as they are asked for. Contracts see it as a plain record.
#[derive(Drop)]
pub struct RecordView<'a> {
    name: &'a [u8],
    hash: u64,
    counters: CounterLines<'a>,
    sites: SiteLines<'a>,
}

impl<'a> Model for RecordView<'a> {
    ghost use Rattle.std.specs.Prelude.{◌≤◌, length};
    ghost use Rattle.prof_view.specs.Profile.{ProfileRecord};
    ghost use Rattle.prof_view.specs.Grammar.{counters_most, sites_most};

    ghost Value = { ProfileRecord };

    ghost view = { λ r. record { name = r.name.now; hash = r.hash; counters = r.counters; sites = r.sites } };

    ghost invariant = { λ r. (length r.counters ≤ counters_most) × (length r.sites ≤ sites_most) };
}

impl<'a> RecordView<'a> {
    /// The function's name, a slice of the text. Takes no memory.
    pub fn name(&self) -> &'a [u8]
        ensures { result.now ≡ self.now.name }
    {
        self.name
    }

    /// The hash of the function's edges. Takes no memory.
    pub fn hash(&self) -> u64
        ensures { result ≡ self.now.hash }
    {
        self.hash
    }

    /// The counters, in order, 1,048,576 at most. Takes no memory.
    pub fn counters(&self) -> CounterLines<'a>
        ensures value { result ≡ self.now.counters }
        ensures few { length self.now.counters ≤ counters_most }
    {
        self.counters.again()
    }

    /// The sites of indirect calls, in order, 65,536 at most. Takes no memory.
    pub fn sites(&self) -> SiteLines<'a>
        ensures value { result ≡ self.now.sites }
        ensures few { length self.now.sites ≤ sites_most }
    {
        self.sites.again()
    }

    // The same record.
    pub(crate) fn again(&self) -> RecordView<'a>
        ensures { result ≡ self.now }
    {
        RecordView {
            name: self.name,
            hash: self.hash,
            counters: self.counters.again(),
            sites: self.sites.again(),
        }
    }
}

// What stands before the value data of a record.
#[derive(Drop)]
struct NamedCounters<'a> {
    name: &'a [u8],
    hash: u64,
    counters: CounterLines<'a>,
}

#[tactic(auto, using(crate::proofs::FrontLemmas::number_comment), unfolding(crate::specs::Grammar::head))]
fn head(text: &[u8]) -> Result<(NamedCounters<'_>, &[u8]), Fault>
    ensures reads { Reads (λ h. (h.name.now, h.hash, h.counters)) result text.now head.read }
    ensures few { IfOk result (λ p. length p.0.counters ≤ counters_most) }
{
    let (name, rest) = name_line(text)?;
    let (hash, rest) = hash_line(rest)?;
    let rest = skip_written(rest, b"# Num Counters:\n");
    let (count, rest) = number_line_within(rest, 1, 1_048_576)?;
    let (counters, rest) = counters(rest, count as u32)?;
    let head = NamedCounters {
        name,
        hash,
        counters,
    };
    Ok((head, rest))
}

/// A record.
#[tactic(auto, unfolding(crate::specs::Grammar::record_ahead))]
pub(crate) fn record(text: &[u8]) -> Result<(RecordView<'_>, &[u8]), Fault>
    ensures { Reads (λ r. r) result text.now record_ahead.read }
{
    let (head, rest) = head(text)?;
    let (sites, rest) = values_ahead(rest)?;
    let view = RecordView {
        name: head.name,
        hash: head.hash,
        counters: head.counters,
        sites,
    };
    Ok((view, rest))
}
