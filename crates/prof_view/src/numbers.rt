// Numbers as digits write them.
ghost use Rattle.std.specs.Prelude.{◌≡◌};
ghost use Rattle.prof_view.specs.Words.{numeral, hash_of, digit_of};
ghost use Rattle.prof_view.specs.Digits.{with_digit, read_digits};

#[inline(always)]
fn decimal_digit(byte: u8) -> Option<u64>
    ensures { result ≡ digit_of 10 byte }
{
    if byte.is_ascii_digit() {
        Some(u64::from(byte - b'0'))
    } else {
        None
    }
}

fn hexadecimal_digit(byte: u8) -> Option<u64>
    ensures { result ≡ digit_of 16 byte }
{
    match byte {
        b'0'..=b'9' => Some(u64::from(byte - b'0')),
        b'A'..=b'F' => Some(u64::from(byte - b'A') + 10),
        b'a'..=b'f' => Some(u64::from(byte - b'a') + 10),
        _ => None,
    }
}

/// The value with one more decimal digit.
#[inline(always)]
pub(crate) fn with_decimal_digit(value: u64, byte: u8) -> Option<u64>
    ensures { result ≡ with_digit 10 value byte }
{
    let digit = decimal_digit(byte)?;
    value.checked_mul(10)?.checked_add(digit)
}

fn with_hexadecimal_digit(value: u64, byte: u8) -> Option<u64>
    ensures { result ≡ with_digit 16 value byte }
{
    let digit = hexadecimal_digit(byte)?;
    value.checked_mul(16)?.checked_add(digit)
}

// Zero with each decimal digit put behind it.
fn read_decimal(digits: &[u8]) -> Option<u64>
    ensures { result ≡ read_digits 10 0 digits.now }
{
    let mut value: u64 = 0;
    for byte in digits {
        value = with_decimal_digit(value, *byte)?;
    }
    Some(value)
}

fn read_hexadecimal(digits: &[u8]) -> Option<u64>
    ensures { result ≡ read_digits 16 0 digits.now }
{
    let mut value: u64 = 0;
    for byte in digits {
        value = with_hexadecimal_digit(value, *byte)?;
    }
    Some(value)
}

/// The decimal number that the bytes write.
#[tactic(auto, using(crate::proofs::Numerals::numeral_some, crate::proofs::Numerals::numeral_none))]
pub(crate) fn decimal(digits: &[u8]) -> Option<u64>
    ensures { result ≡ numeral 10 digits.now }
{
    if digits.is_empty() {
        None
    } else {
        read_decimal(digits)
    }
}

#[tactic(auto, using(crate::proofs::Numerals::numeral_some, crate::proofs::Numerals::numeral_none))]
fn hexadecimal(digits: &[u8]) -> Option<u64>
    ensures { result ≡ numeral 16 digits.now }
{
    if digits.is_empty() {
        None
    } else {
        read_hexadecimal(digits)
    }
}

/// The hash that the line writes.
#[tactic(auto, unfolding(crate::specs::Words::hash_of))]
pub(crate) fn hash(line: &[u8]) -> Option<u64>
    ensures { result ≡ hash_of line.now }
{
    if line.starts_with(b"0x") {
        hexadecimal(&line[2..])
    } else {
        decimal(line)
    }
}
