//! The bytes that the content of a byte string means.

ghost use Rattle.std.specs.Prelude.{◌≡◌, ◌+◌, ◌*◌, ◌%◌, ◌++◌, ◌∷◌, [], ℕ, List, IfOk, OnOk};
ghost use Rattle.std.specs.Char.{digit_value};
ghost use Rattle.ir_lex.specs.Meaning.{decoded};
ghost use Rattle.ir_read.specs.Decoding.{decoded_with};

use crate::word::value_of_digit;
use pgo_base::NoMemory;
use std::alloc::Global;

/// The bytes that were decoded, how many digits the last escape still has to have, and the value of those that it had.
#[derive(Drop)]
struct Decoder {
    bytes: Vec<u8>,
    owed: u8,
    value: u8,
}

/// The value of one digit more, as a byte.
fn with_digit(value: u8, digit: u8) -> u8
    ensures { result ≡ (16 * value + digit_value digit) % 256 }
{
    let sum = u32::from(value) * 16 + value_of_digit(digit);
    (sum % 256) as u8
}

impl Decoder {
    /// Goes on by one byte of the content.
    fn add(&mut self, b: u8) -> Result<(), NoMemory>
        ensures { OnOk result ((rest : List ℕ) → decoded_with self.new rest ≡ decoded_with self.old (b ∷ rest)) }
    {
        if self.owed == 0 {
            if b == b'\\' {
                self.owed = 2;
                self.value = 0;
            } else {
                self.bytes.push(b)?;
                self.value = 0;
            }
        } else if self.owed == 1 {
            self.bytes.push(with_digit(self.value, b))?;
            self.owed = 0;
            self.value = 0;
        } else {
            self.owed -= 1;
            self.value = with_digit(self.value, b);
        }
        Ok(())
    }
}

/// The bytes of a content: `\` and two hexadecimal digits stand for one byte.
pub(crate) fn decoded(alloc: Global, content: &[u8]) -> Result<Vec<u8>, NoMemory>
    ensures { IfOk result (λ bytes. bytes.items ≡ decoded 0 0 content.now) }
{
    let mut decoder = Decoder {
        bytes: Vec::with_capacity(alloc, content.len())?,
        owed: 0,
        value: 0,
    };
    for b in content {
        decoder.add(*b)?;
    }
    Ok(decoder.bytes)
}
