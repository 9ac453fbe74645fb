// What single lines mean.
ghost use Rattle.std.specs.Prelude.{◌≡◌, true, length, IfSome};
ghost use Rattle.std.specs.List.{list_all};
ghost use Rattle.std.specs.Option.{option_map, option_copied};
ghost use Rattle.prof_view.specs.Words.{all_digits, begins_colon, is_name_byte, name_of, header_of, target_of};

use crate::lines::behind;
use crate::numbers::decimal;
use memchr::memrchr;

/// Whether a colon stands at the front.
pub(crate) fn begins_colon(line: &[u8]) -> bool
    ensures { result ≡ begins_colon line.now }
{
    !line.is_empty() && line[0] == b':'
}

/// Whether the line has no byte but digits.
pub(crate) fn all_digits(line: &[u8]) -> bool
    ensures { result ≡ all_digits 10 line.now }
{
    line.iter().all(|byte| byte.is_ascii_digit())
}

fn is_name_byte(byte: u8) -> bool
    ensures { result ≡ is_name_byte byte }
{
    (b' '..=b'~').contains(&byte)
}

fn are_name_bytes(line: &[u8]) -> bool
    ensures { result ≡ list_all is_name_byte line.now }
{
    line.iter().all(|byte| is_name_byte(*byte))
}

/// The function's name that the line is.
#[tactic(auto, unfolding(crate::specs::Words::name_of))]
pub(crate) fn name(line: &[u8]) -> Option<&[u8]>
    ensures { option_copied result ≡ name_of line.now }
{
    if are_name_bytes(line) && !all_digits(line) && !begins_colon(line) {
        Some(line)
    } else {
        None
    }
}

/// Whether the line of the header says that the profile is entry-first; none at another line.
#[tactic(auto, unfolding(crate::specs::Words::header_of))]
pub(crate) fn header_word(line: &[u8]) -> Option<bool>
    ensures { result ≡ header_of line.now }
{
    if line.eq_ignore_ascii_case(b":ir") {
        Some(false)
    } else if line.eq_ignore_ascii_case(b":entry_first") {
        Some(true)
    } else {
        None
    }
}

/// The name and the count that the line's last colon parts.
pub(crate) fn target(line: &[u8]) -> Option<(&[u8], u64)>
    ensures { option_map (λ p. (p.0.now, p.1)) result ≡ target_of line.now }
{
    if begins_colon(line) {
        return None;
    }
    match memrchr(b':', line) {
        Some(colon) => match decimal(behind(line, colon + 1)) {
            Some(count) => Some((&line[..colon], count)),
            None => None,
        },
        None => None,
    }
}
