// The lines of a text, and the words of a line.
ghost use Rattle.std.specs.Prelude.{◌≡◌, ◌∷◌, ◌<◌, [], map, length, IfOk, IfSome};
ghost use Rattle.std.specs.Option.{option_map_or, option_copied};
ghost use Rattle.call_list.specs.Lines.{is_blank, is_line_feed, lines_of, words_of};

use memchr::memchr;
use std::alloc::{AllocError, Global};

pub fn is_blank(byte: u8) -> bool
    ensures { result ≡ is_blank byte }
{
    byte == b' ' || byte == b'\t'
}

/// The words of a line, which are parted by blanks.
pub fn words(alloc: Global, line: &[u8]) -> Result<Vec<&[u8]>, AllocError>
    ensures { IfOk result (λ v. map (λ w. w.now) v.items ≡ words_of line.now) }
{
    line.split(|byte| is_blank(*byte))
        .filter(|word| !word.is_empty())
        .collect(alloc)
}

/// The first line of a text, and what stands behind it where there are more.
pub fn first_line(text: &[u8]) -> (&[u8], Option<&[u8]>)
    ensures lines { lines_of text.now ≡ result.0.now ∷ option_map_or lines_of (option_copied result.1) [] }
    ensures less { IfSome (option_copied result.1) (λ more. length more < length text.now) }
{
    match memchr(b'\n', text) {
        Some(end) => (&text[..end], Some(&text[end + 1..])),
        None => (text, None),
    }
}
