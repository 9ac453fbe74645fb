// Names and numbers in the plain form in which profiles are written: bytes without blanks up to a line feed.
ghost use Rattle.std.specs.Bool.{OnTrue};
ghost use Rattle.std.specs.Prelude.{◌≡◌, ◌≢◌, ◌⊎◌, ◌<◌, ◌≤◌, ◌+◌, Some, IfSome, drop, length};
ghost use Rattle.prof_view.specs.Lines.{content};
ghost use Rattle.prof_view.specs.Grammar.{name_line, number_line};

use crate::lines::behind;
use crate::numbers::with_decimal_digit;
use core::dec2flt::read_digits;

// Numbers of so many digits are below 2^64.
const DIGITS_MOST: usize = 19;

/// The number of a line that has at most 19 digits alone, and what stands behind its line feed. Another line may be a
/// number too, as one with blanks: of such a line, and of the last one, this says nothing.
#[inline(always)]
pub(crate) fn plain_number(text: &[u8]) -> Option<(u64, &[u8])>
    ensures { IfSome result (λ p. number_line.read (content text.now) ≡ Some (p.0, content p.1.now)) }
{
    let (end, value) = read_digits(text, 0, 0);
    if end == 0 || DIGITS_MOST < end || end == text.len() {
        return None;
    }
    if text[end] == b'\n' {
        Some((value, behind(text, end + 1)))
    } else {
        None
    }
}

/// The same with any number of digits, one by one.
#[inline(never)]
pub(crate) fn long_number(text: &[u8]) -> Option<(u64, &[u8])>
    ensures { IfSome result (λ p. number_line.read (content text.now) ≡ Some (p.0, content p.1.now)) }
{
    let mut value: u64 = 0;
    for (end, byte) in text.iter().enumerate() {
        if *byte == b'\n' && end > 0 {
            return Some((value, behind(text, end + 1)));
        }
        if !byte.is_ascii_digit() {
            return None;
        }
        value = with_decimal_digit(value, *byte)?;
    }
    None
}

fn is_visible(byte: u8) -> bool
    ensures { OnTrue result ((33 ≤ byte) × (byte ≤ 126)) }
{
    (b'!'..=b'~').contains(&byte)
}

// Whether a plain name may begin so: no comment does, no line of the header, and no number.
fn begins_name(byte: u8) -> bool
    ensures { OnTrue result ((byte ≢ 35) × (byte ≢ 58) × ((byte < 48) ⊎ (57 < byte))) }
{
    byte != b'#' && byte != b':' && !byte.is_ascii_digit()
}

/// The name that is a line without blanks, and what stands behind its line feed. Of another line, and of the last one,
/// this says nothing.
#[inline(always)]
pub(crate) fn plain_name(text: &[u8]) -> Option<(&[u8], &[u8])>
    ensures { IfSome result (λ p. name_line.read (content text.now) ≡ Some (p.0.now, content p.1.now)) }
{
    let [first, ..] = text else {
        return None;
    };
    if !begins_name(*first) {
        return None;
    }
    for (end, byte) in text.iter().enumerate() {
        if *byte == b'\n' && end > 0 {
            return Some((&text[..end], behind(text, end + 1)));
        }
        if !is_visible(*byte) {
            return None;
        }
    }
    None
}
