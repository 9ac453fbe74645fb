// A profile text as records that borrow it.
ghost use Rattle.std.specs.Prelude.{◌≡◌, ◌==◌, ◌||◌, ◌<◌, ◌≤◌, Some, length, slice_get, is_some, IfOk, IfErr};
ghost use Rattle.prof_view.specs.Lines.{content};
ghost use Rattle.prof_view.specs.Words.{begins_colon};
ghost use Rattle.prof_view.specs.Grammar.{next_is, any_line, mode_ahead, records_ahead, profile_ahead};
ghost use Rattle.prof_view.specs.Reads.{Reads, ReadsAll, items_of};
ghost use Rattle.prof_view.specs.Spelled.{Spells, Refuses, NamesLine, text_most};

use crate::error::ViewError;
use crate::fault::{Fault, Stop};
use crate::fields::header_line;
use crate::lines::{front, next_content};
use crate::record::{RecordView, record};
use crate::words::begins_colon;
use memchr::memchr_iter;
use std::alloc::Global;
use std::marker::Model;

/// The most bytes that a text may have.
pub const TEXT_MOST: usize = 16_777_216;

/// A profile text, read: its records, in the order of the text, and its mode. Contracts see it as the
/// plain profile that the text spells. Of memory it has a place for each record, and none for the
/// counters.
#[derive(Drop)]
pub struct ProfileView<'a> {
    entry_first: bool,
    records: Vec<RecordView<'a>>,
}

impl<'a> Model for ProfileView<'a> {
    ghost use Rattle.prof_view.specs.Profile.{ProfileInput};

    ghost Value = { ProfileInput };

    ghost view = { λ v. record { entry_first = v.entry_first; records = v.records.items } };
}

impl<'a> ProfileView<'a> {
    /// Reads a profile text (LLVM's text profiles, as `llvm-profdata merge --text` writes them). The
    /// result is the one profile that the text spells. `TextLimit` comes exactly where the text is
    /// longer than 16,777,216 bytes, and else `Syntax` exactly where it spells no profile, with the line counted from 1.
    pub fn read(alloc: Global, text: &'a [u8]) -> Result<ProfileView<'a>, ViewError>
        ensures spelled { IfOk result (Spells text.now) }
        ensures within { IfOk result (λ _. length text.now ≤ text_most) }
        ensures refused { IfErr result (Refuses text.now) }
        ensures line { IfErr result NamesLine }
    {
        if text.len() > TEXT_MOST {
            return Err(ViewError::TextLimit { length: text.len() });
        }
        match profile(alloc, text) {
            Ok(view) => Ok(view),
            Err(Stop::Syntax { left }) => Err(ViewError::Syntax {
                line: line_at(text, left),
            }),
            Err(Stop::NoMemory) => Err(ViewError::NoMemory),
        }
    }

    /// How many records there are. Takes no memory.
    pub fn len(&self) -> usize
        ensures { result ≡ length self.now.records }
    {
        self.records.len()
    }

    /// Whether there is no record. Takes no memory.
    pub fn is_empty(&self) -> bool
        ensures { result ≡ (length self.now.records == 0) }
    {
        self.records.is_empty()
    }

    /// The record at this index, counted from 0. Takes no memory.
    pub fn at(&self, index: usize) -> RecordView<'a>
        requires { index < length self.now.records }
        ensures { slice_get self.now.records index ≡ Some result }
    {
        self.records[index].again()
    }

    /// Whether counter 0 of a function counts its entries. Takes no memory.
    pub fn entry_first(&self) -> bool
        ensures { result ≡ self.now.entry_first }
    {
        self.entry_first
    }
}

// The number of the line, counted from 1, behind which so many bytes stand.
fn line_at(text: &[u8], left: usize) -> u32
    requires { length text.now ≤ text_most }
    ensures { 0 < result }
{
    let end = text.len().saturating_sub(left).saturating_sub(1);
    let line_feeds = memchr_iter(b'\n', &text[..end]).count();
    line_feeds as u32 + 1
}

// Whether a line of the header is ahead.
#[tactic(auto, using(crate::proofs::FrontLemmas::front_colon))]
fn header_ahead(text: &[u8]) -> bool
    ensures { result ≡ next_is begins_colon (content text.now) }
{
    if let Some(byte) = front(text) {
        return byte == b':';
    }
    match next_content(text) {
        Some((line, _)) => begins_colon(line),
        None => false,
    }
}

fn either(first: bool, second: bool) -> bool
    ensures { result ≡ (first || second) }
{
    first || second
}

// The header: whether the profile is entry-first.
#[tactic(auto, using(crate::proofs::ViewLemmas::mode_step, crate::proofs::ViewLemmas::mode_none, crate::proofs::ViewLemmas::mode_end, crate::proofs::ViewLemmas::mode_is, crate::proofs::ViewLemmas::header_shorter))]
fn mode(text: &[u8]) -> Result<(bool, &[u8]), Fault>
    ensures { Reads (λ m. m) result text.now mode_ahead.read }
{
    let mut entry_first = false;
    let mut rest = text;
    while header_ahead(rest) {
        match header_line(rest) {
            Ok((flag, after)) => {
                entry_first = either(entry_first, flag);
                rest = after;
            }
            Err(fault) => return Err(fault),
        }
    }
    Ok((entry_first, rest))
}

// Whether any line is ahead.
#[tactic(auto, using(crate::proofs::FrontLemmas::front_counts))]
fn line_ahead(text: &[u8]) -> bool
    ensures { result ≡ any_line (content text.now) }
{
    front(text).is_some() || next_content(text).is_some()
}

// The records up to the end.
#[tactic(auto, using(crate::proofs::ViewLemmas::records_step, crate::proofs::ViewLemmas::records_none, crate::proofs::ViewLemmas::records_end, crate::proofs::ViewLemmas::records_are, crate::proofs::ViewLemmas::record_shorter))]
fn records(alloc: Global, text: &[u8]) -> Result<Vec<RecordView<'_>>, Stop>
    ensures { ReadsAll (items_of result) text.now records_ahead.read }
{
    let mut found = Vec::new(alloc);
    let mut rest = text;
    while line_ahead(rest) {
        let (view, after) = record(rest)?;
        found.push(view)?;
        rest = after;
    }
    found.shrink_to_fit();
    Ok(found)
}

#[tactic(auto, unfolding(crate::specs::Grammar::profile_ahead))]
fn profile(alloc: Global, text: &[u8]) -> Result<ProfileView<'_>, Stop>
    ensures { ReadsAll result text.now profile_ahead.read }
{
    let (entry_first, rest) = mode(text)?;
    let records = records(alloc, rest)?;
    Ok(ProfileView {
        entry_first,
        records,
    })
}
