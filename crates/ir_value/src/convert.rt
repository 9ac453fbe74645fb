//! Conversions between widths.
ghost use Rattle.std.specs.Prelude.{◌≡◌, ◌^◌, ◌<◌, ◌≤◌, true};
ghost use Rattle.ir_value.specs.Integer.{IsWidth, truncated};
ghost use Rattle.ir_value.specs.Operators.{extended};

use crate::words::{low_bits, signed as signed_reading, wrap};

/// The integer of `to` bits that has the value of `value`, one of `from` bits: its signed reading where `signed`
/// (`sext`), else the number itself (`zext`). LLVM Language Reference, "Conversion Operations".
pub fn extend(signed: bool, from: u32, to: u32, value: u64) -> u64
    requires from { IsWidth from }
    requires to { IsWidth to }
    requires wider { from ≤ to }
    requires value { value < 2 ^ from }
    ensures value { result ≡ extended signed from to value }
    ensures fits { result < 2 ^ to }
    ensures truncates_back { truncated from result ≡ value }
{
    if signed {
        wrap(to, signed_reading(from, value))
    } else {
        value
    }
}

/// The integer of `to` bits that is congruent to the signed reading of `value`, one of `from` bits, whichever width is
/// the greater.
pub fn convert_signed(from: u32, to: u32, value: u64) -> u64
    requires from { IsWidth from }
    requires to { IsWidth to }
    requires value { value < 2 ^ from }
    ensures value { result ≡ extended true from to value }
{
    wrap(to, signed_reading(from, value))
}

/// The lowest `to` bits of `value` (`trunc`). LLVM Language Reference, "Conversion Operations".
pub fn truncate(to: u32, value: u64) -> u64
    requires { IsWidth to }
    ensures value { result ≡ truncated to value }
    ensures fits { result < 2 ^ to }
{
    low_bits(to, value)
}
