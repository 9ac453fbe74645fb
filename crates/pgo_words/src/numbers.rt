// Numbers of the command line.
ghost use Rattle.std.specs.Prelude.{◌≡◌, ◌≤◌, ◌&&◌, IfSome, nat_le};
ghost use Rattle.std.specs.List.{list_all};
ghost use Rattle.pgo_words.specs.Numbers.{is_digit, is_number, number_within};

/// The number that one to `most` decimal digits write, where it is from `low` to `high`. There is no sign, and zeros may
/// stand in front.
pub fn number_within(text: &str, most: usize, low: u64, high: u64) -> Option<u64>
    ensures number { result ≡ number_within most low high text.now }
    ensures high { IfSome result (λ n. n ≤ high) }
{
    if !is_number(text.as_bytes(), most) {
        return None;
    }
    match text.parse::<u64>() {
        Ok(number) if low <= number && number <= high => Some(number),
        _ => None,
    }
}

// One to `most` decimal digits.
fn is_number(text: &[u8], most: usize) -> bool
    ensures { result ≡ is_number most text.now }
{
    has_digits(text.len(), most) && are_digits(text)
}

fn has_digits(digits: usize, most: usize) -> bool
    ensures { result ≡ (nat_le 1 digits && nat_le digits most) }
{
    1 <= digits && digits <= most
}

fn are_digits(text: &[u8]) -> bool
    ensures { result ≡ list_all is_digit text.now }
{
    text.iter().all(|b| b'0' <= *b && *b <= b'9')
}
