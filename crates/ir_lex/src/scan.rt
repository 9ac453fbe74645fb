//! A scanner for each kind of token. It gives what is left of a text behind the longest token of its kind.

ghost use Rattle.std.specs.Prelude.{◌≡◌, ℕ, ◌<◌, ◌≤◌, ◌==◌, IsTrue, length, drop, None, Some};
ghost use Rattle.std.specs.List.{prefix_len};
ghost use Rattle.std.specs.Option.{option_map};
ghost use Rattle.std.specs.Char.{is_ascii_digit};
ghost use Rattle.ir_tree.specs.Spelling as name;
ghost use Rattle.ir_lex.specs.Classes as class;
ghost use Rattle.ir_lex.specs.Scan as scan;

use crate::bytes::{is_sign, is_string_byte};
use ir_tree::{is_name_byte, is_name_first, is_quotable, is_word_first};

// ---- runs of bytes

fn name_len(text: &[u8]) -> usize
    ensures count { result ≡ prefix_len name.is_name_byte text.now }
    ensures within { result ≤ length text.now }
{
    text.iter().take_while(|b| is_name_byte(**b)).count()
}

fn digits_len(text: &[u8]) -> usize
    ensures count { result ≡ prefix_len is_ascii_digit text.now }
    ensures within { result ≤ length text.now }
{
    text.iter().take_while(|b| b.is_ascii_digit()).count()
}

fn quotable_len(text: &[u8]) -> usize
    ensures count { result ≡ prefix_len name.is_quotable text.now }
    ensures within { result ≤ length text.now }
{
    text.iter().take_while(|b| is_quotable(**b)).count()
}

fn string_len(text: &[u8]) -> usize
    ensures count { result ≡ prefix_len class.is_string_byte text.now }
    ensures within { result ≤ length text.now }
{
    text.iter().take_while(|b| is_string_byte(**b)).count()
}

/// The text without its first n bytes.
pub(crate) fn behind(text: &[u8], n: usize) -> &[u8]
    requires { n ≤ length text.now }
    ensures { result.now ≡ drop n text.now }
{
    &text[n..]
}

fn skip_name(text: &[u8]) -> &[u8]
    ensures { result.now ≡ scan.skip name.is_name_byte text.now }
{
    behind(text, name_len(text))
}

fn skip_digits(text: &[u8]) -> &[u8]
    ensures { result.now ≡ scan.skip is_ascii_digit text.now }
{
    behind(text, digits_len(text))
}

fn skip_quotable(text: &[u8]) -> &[u8]
    ensures { result.now ≡ scan.skip name.is_quotable text.now }
{
    behind(text, quotable_len(text))
}

fn skip_string(text: &[u8]) -> &[u8]
    ensures { result.now ≡ scan.skip class.is_string_byte text.now }
{
    behind(text, string_len(text))
}

// ---- single bytes

fn after_byte(text: &[u8], byte: u8) -> Option<&[u8]>
    ensures { option_map (λ rest. rest.now) result ≡ scan.first_of (λ b. b == byte) text.now }
{
    match text {
        [first, rest @ ..] if *first == byte => Some(rest),
        _ => None,
    }
}

fn after_digit(text: &[u8]) -> Option<&[u8]>
    ensures { option_map (λ rest. rest.now) result ≡ scan.first_of is_ascii_digit text.now }
{
    match text {
        [first, rest @ ..] if first.is_ascii_digit() => Some(rest),
        _ => None,
    }
}

fn after_name_first(text: &[u8]) -> Option<&[u8]>
    ensures { option_map (λ rest. rest.now) result ≡ scan.first_of name.is_name_first text.now }
{
    match text {
        [first, rest @ ..] if is_name_first(*first) => Some(rest),
        _ => None,
    }
}

fn after_quotable(text: &[u8]) -> Option<&[u8]>
    ensures { option_map (λ rest. rest.now) result ≡ scan.first_of name.is_quotable text.now }
{
    match text {
        [first, rest @ ..] if is_quotable(*first) => Some(rest),
        _ => None,
    }
}

fn after_word_first(text: &[u8]) -> Option<&[u8]>
    ensures { option_map (λ rest. rest.now) result ≡ scan.first_of name.is_word_first text.now }
{
    match text {
        [first, rest @ ..] if is_word_first(*first) => Some(rest),
        _ => None,
    }
}

/// What is left behind the longer of two tokens.
fn shorter<'a>(first: Option<&'a [u8]>, second: Option<&'a [u8]>) -> Option<&'a [u8]>
    ensures { option_map (λ rest. rest.now) result
        ≡ scan.shorter (option_map (λ rest. rest.now) first.entry) (option_map (λ rest. rest.now) second.entry) }
{
    match (first, second) {
        (Some(a), Some(b)) => { if b.len() < a.len() { Some(b) } else { Some(a) } }
        (Some(a), None) => Some(a),
        (None, _) => second,
    }
}

// ---- names

fn digits(text: &[u8]) -> Option<&[u8]>
    ensures { option_map (λ rest. rest.now) result ≡ scan.digits_rest text.now }
{
    Some(skip_digits(after_digit(text)?))
}

fn plain_name(text: &[u8]) -> Option<&[u8]>
    ensures { option_map (λ rest. rest.now) result ≡ scan.plain_name_rest text.now }
{
    Some(skip_name(after_name_first(text)?))
}

fn quoted_name(text: &[u8]) -> Option<&[u8]>
    ensures { option_map (λ rest. rest.now) result ≡ scan.quoted_name_rest text.now }
{
    let name = after_quotable(after_byte(text, b'"')?)?;
    after_byte(skip_quotable(name), b'"')
}

/// A name in quotes that is not digits alone.
fn quoted_symbol(text: &[u8]) -> Option<&[u8]>
    ensures { option_map (λ rest. rest.now) result ≡ scan.quoted_symbol_rest text.now }
{
    let name = skip_digits(after_byte(text, b'"')?);
    after_byte(skip_quotable(after_quotable(name)?), b'"')
}

// ---- tokens

#[tactic(auto, unfolding(crate::specs::Scan::word_rest))]
pub(crate) fn after_word(text: &[u8]) -> Option<&[u8]>
    ensures { option_map (λ rest. rest.now) result ≡ scan.word_rest text.now }
{
    Some(skip_name(after_word_first(text)?))
}

#[tactic(auto, unfolding(crate::specs::Scan::number_rest))]
pub(crate) fn after_number(text: &[u8]) -> Option<&[u8]>
    ensures { option_map (λ rest. rest.now) result ≡ scan.number_rest text.now }
{
    shorter(digits(text), negative(text))
}

fn negative(text: &[u8]) -> Option<&[u8]>
    ensures { option_map (λ rest. rest.now) result ≡ scan.byte_rest 45 scan.digits_rest text.now }
{
    digits(after_byte(text, b'-')?)
}

#[tactic(auto, unfolding(crate::specs::Scan::global_rest))]
pub(crate) fn after_global(text: &[u8]) -> Option<&[u8]>
    ensures { option_map (λ rest. rest.now) result ≡ scan.global_rest text.now }
{
    let name = after_byte(text, b'@')?;
    shorter(plain_name(name), quoted_symbol(name))
}

#[tactic(auto, unfolding(crate::specs::Scan::local_rest))]
pub(crate) fn after_local(text: &[u8]) -> Option<&[u8]>
    ensures { option_map (λ rest. rest.now) result ≡ scan.local_rest text.now }
{
    let name = after_byte(text, b'%')?;
    shorter(plain_name(name), shorter(digits(name), quoted_name(name)))
}

fn plain_label(text: &[u8]) -> Option<&[u8]>
    ensures { option_map (λ rest. rest.now) result ≡ scan.plain_label_rest text.now }
{
    after_byte(skip_name(after_name_first(text)?), b':')
}

fn digit_label(text: &[u8]) -> Option<&[u8]>
    ensures { option_map (λ rest. rest.now) result ≡ scan.digit_label_rest text.now }
{
    after_byte(skip_digits(after_digit(text)?), b':')
}

fn quoted_label(text: &[u8]) -> Option<&[u8]>
    ensures { option_map (λ rest. rest.now) result ≡ scan.quoted_label_rest text.now }
{
    let name = after_quotable(after_byte(text, b'"')?)?;
    after_byte(after_byte(skip_quotable(name), b'"')?, b':')
}

#[tactic(auto, unfolding(crate::specs::Scan::string_rest))]
pub(crate) fn after_string(text: &[u8]) -> Option<&[u8]>
    ensures { option_map (λ rest. rest.now) result ≡ scan.string_rest text.now }
{
    after_byte(skip_string(after_byte(text, b'"')?), b'"')
}

#[tactic(auto, unfolding(crate::specs::Scan::group_rest))]
pub(crate) fn after_group(text: &[u8]) -> Option<&[u8]>
    ensures { option_map (λ rest. rest.now) result ≡ scan.group_rest text.now }
{
    digits(after_byte(text, b'#')?)
}

pub(crate) fn after_mark(text: &[u8]) -> Option<&[u8]>
    ensures { option_map (λ rest. rest.now) result ≡ scan.byte_rest 33 Some text.now }
{
    after_byte(text, b'!')
}

pub(crate) fn after_sign(text: &[u8]) -> Option<&[u8]>
    ensures { option_map (λ rest. rest.now) result ≡ scan.one_rest class.is_sign Some text.now }
{
    match text {
        [first, rest @ ..] if is_sign(*first) => Some(rest),
        _ => None,
    }
}

/// For a text that begins with `-`, how many of the bytes at the front can begin no label without quotes, since no colon
/// stands behind the run of name bytes that they are of. So such a run is looked at once, and not again at each of the
/// numbers in it.
pub(crate) fn unlabelled_len(text: &[u8]) -> usize
    ensures within { result ≤ length text.now }
    ensures unlabelled { (k : ℕ) → k < result → scan.plain_label_rest (drop k text.now) ≡ None }
{
    if !text.starts_with(b"-") {
        return 0;
    }
    let n = name_len(text);
    match after_byte(behind(text, n), b':') {
        Some(_) => 0,
        None => n,
    }
}

/// A label. Where it is known that no colon follows the name bytes at the front, they are not looked at again.
#[tactic(auto, unfolding(crate::specs::Scan::label_rest))]
pub(crate) fn after_label(text: &[u8], unlabelled: bool) -> Option<&[u8]>
    requires { IsTrue unlabelled → scan.plain_label_rest text.now ≡ None }
    ensures { option_map (λ rest. rest.now) result ≡ scan.label_rest text.now }
{
    let quoted = shorter(digit_label(text), quoted_label(text));
    if unlabelled {
        quoted
    } else {
        shorter(plain_label(text), quoted)
    }
}

#[tactic(auto, unfolding(crate::specs::Scan::bytes_rest))]
pub(crate) fn after_bytes(text: &[u8]) -> Option<&[u8]>
    ensures { option_map (λ rest. rest.now) result ≡ scan.bytes_rest text.now }
{
    after_content(after_byte(after_byte(text, b'c')?, b'"')?)
}

/// What is left behind the closing quote of a byte string, from behind its opening one.
fn after_content(text: &[u8]) -> Option<&[u8]>
    ensures { option_map (λ rest. rest.now) result ≡ scan.content_rest 0 text.now }
{
    // how many hexadecimal digits the last escape still has to have
    let mut owed = 0u8;
    for (i, b) in text.iter().enumerate() {
        if owed > 0 {
            if !b.is_ascii_hexdigit() {
                return None;
            }
            owed -= 1;
        } else if *b == b'"' {
            return Some(behind(text, i + 1));
        } else if *b == b'\\' {
            owed = 2;
        } else if !is_string_byte(*b) {
            return None;
        }
    }
    None
}
