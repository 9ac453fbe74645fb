// The lines of a text that count.
ghost use Rattle.std.specs.Prelude.{◌≡◌, ◌<◌, ◌≤◌, ◌++◌, ℕ, List, reverse, length, drop, IfSome};
ghost use Rattle.prof_view.specs.Lines.{is_blank, skip_blanks, trim, counts, content, with_line};
ghost use Rattle.prof_view.specs.Reads.{NextLine, FirstLine, BeginsWith};

use crate::fault::Fault;
use memchr::memchr;

fn is_blank(byte: u8) -> bool
    ensures { result ≡ is_blank byte }
{
    byte == b' ' || byte == b'\t' || byte == b'\r'
}

fn skip_blanks(line: &[u8]) -> &[u8]
    ensures { result.now ≡ skip_blanks line.now }
{
    let mut rest = line;
    while let [first, after @ ..] = rest {
        if !is_blank(*first) {
            return rest;
        }
        rest = after;
    }
    rest
}

fn skip_last_blanks(line: &[u8]) -> &[u8]
    ensures { result.now ≡ reverse (skip_blanks (reverse line.now)) }
{
    let mut rest = line;
    while let [before @ .., last] = rest {
        if !is_blank(*last) {
            return rest;
        }
        rest = before;
    }
    rest
}

#[tactic(auto, unfolding(crate::specs::Lines::trim))]
fn trim(line: &[u8]) -> &[u8]
    ensures { result.now ≡ trim line.now }
{
    skip_last_blanks(skip_blanks(line))
}

fn counts(line: &[u8]) -> bool
    ensures { result ≡ counts line.now }
{
    !line.is_empty() && line[0] != b'#'
}

/// What stands behind the first n bytes.
#[inline(always)]
pub(crate) fn behind(text: &[u8], n: usize) -> &[u8]
    requires { n ≤ length text.now }
    ensures { result.now ≡ drop n text.now }
{
    &text[n..]
}

// The first line of a text and what stands behind it.
fn split_line(text: &[u8]) -> (&[u8], &[u8])
    requires { 0 < length text.now }
    ensures lines { content text.now ≡ with_line (trim result.0.now) (content result.1.now) }
    ensures less { length result.1.now < length text.now }
{
    match memchr(b'\n', text) {
        Some(end) => (&text[..end], behind(text, end + 1)),
        None => (text, &[]),
    }
}

/// The next line that counts, and what stands behind it; none at the end.
#[tactic(auto, using(crate::proofs::LineLemmas::content_of_empty))]
pub(crate) fn next_content(text: &[u8]) -> Option<(&[u8], &[u8])>
    ensures { NextLine result (content text.now) }
{
    let mut rest = text;
    while !rest.is_empty() {
        let (line, after) = split_line(rest);
        let line = trim(line);
        rest = after;
        if counts(line) {
            return Some((line, rest));
        }
    }
    None
}

/// The next line that counts, where there has to be one.
pub(crate) fn next_line(text: &[u8]) -> Result<(&[u8], &[u8]), Fault>
    ensures { FirstLine result (content text.now) }
{
    match next_content(text) {
        Some(found) => Ok(found),
        None => Err(Fault { left: 0 }),
    }
}

/// The text behind a comment at its front that profiles are written with, if it is this one.
#[inline(always)]
pub(crate) fn skip_written<'a, const N: usize>(text: &'a [u8], comment: &[u8; N]) -> &'a [u8]
    requires { (rest : List ℕ) → content (comment.now ++ rest) ≡ content rest }
    ensures { content result.now ≡ content text.now }
{
    match text.split_first_chunk::<N>() {
        Some((front, rest)) => { if front == comment { rest } else { text } }
        None => text,
    }
}

/// The text behind the lines at its front that begin with `#`, which do not count.
#[inline(always)]
pub(crate) fn skip_comments(text: &[u8]) -> &[u8]
    ensures { content result.now ≡ content text.now }
{
    let mut rest = text;
    while let [first, ..] = rest {
        if *first != b'#' {
            return rest;
        }
        let (line, after) = split_line(rest);
        if counts(trim(line)) {
            return rest;
        }
        rest = after;
    }
    rest
}

/// The text behind the line feeds at its front, which begin no line that counts.
pub(crate) fn skip_line_feeds(text: &[u8]) -> &[u8]
    ensures { content result.now ≡ content text.now }
{
    let mut rest = text;
    while let [first, ..] = rest {
        if *first != b'\n' {
            return rest;
        }
        rest = behind(rest, 1);
    }
    rest
}

/// The first byte of the next line that counts, where the text begins with it. Where it doesn't, as where an empty line
/// stands in between, this says nothing.
pub(crate) fn front(text: &[u8]) -> Option<u8>
    ensures { IfSome result (λ byte. BeginsWith byte (content text.now)) }
{
    let [byte, ..] = text else {
        return None;
    };
    if is_blank(*byte) {
        return None;
    }
    if *byte == b'\n' || *byte == b'#' {
        return None;
    }
    Some(*byte)
}
