//! Bytes as numbers, the lowest first.
ghost use Rattle.std.specs.Prelude.{◌≡◌, ◌+◌, ◌≤◌, length, take, drop};
ghost use Rattle.ir_memory.specs.Bytes.{number_of};

/// The number that the `width` bytes from a place on are, read at once where they are one, four or eight.
#[inline(always)]
pub fn number_at(bytes: &[u8], at: usize, width: u32) -> u64
    requires width { width ≤ 8 }
    requires within { at + width ≤ length bytes.now }
    ensures { result ≡ number_of (take width (drop at bytes.now)) }
{
    match width {
        8 => word_at(bytes, at),
        4 => u64::from(half_word(&bytes[at..at + 4])),
        1 => u64::from(bytes[at]),
        _ => each(&bytes[at..at + width as usize]),
    }
}

/// The number that the eight bytes from a place on are.
#[inline(always)]
pub fn word_at(bytes: &[u8], at: usize) -> u64
    requires { at + 8 ≤ length bytes.now }
    ensures { result ≡ number_of (take 8 (drop at bytes.now)) }
{
    word(&bytes[at..at + 8])
}

#[inline(always)]
fn word(bytes: &[u8]) -> u64
    requires { length bytes.now ≡ 8 }
    ensures { result ≡ number_of bytes.now }
{
    u64::from_le_bytes([
        bytes[0], bytes[1], bytes[2], bytes[3], bytes[4], bytes[5], bytes[6], bytes[7],
    ])
}

#[inline(always)]
fn half_word(bytes: &[u8]) -> u32
    requires { length bytes.now ≡ 4 }
    ensures { result ≡ number_of bytes.now }
{
    u32::from_le_bytes([bytes[0], bytes[1], bytes[2], bytes[3]])
}

fn each(bytes: &[u8]) -> u64
    requires { length bytes.now ≤ 8 }
    ensures { result ≡ number_of bytes.now }
{
    let mut n = 0;
    for k in (0..bytes.len()).rev() {
        n = u64::from(bytes[k]) + 256 * n;
    }
    n
}
