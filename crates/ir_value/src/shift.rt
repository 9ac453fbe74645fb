//! The shifts, which give 0 from the width on.
ghost use Rattle.std.specs.Prelude.{◌≡◌, ◌*◌, ◌/◌, ◌^◌, ◌<◌, pos};
ghost use Rattle.std.specs.Int.{int_shr};
ghost use Rattle.ir_value.specs.Integer.{IsWidth, wrapped, signed_of};
ghost use Rattle.ir_value.specs.Operators.{shifted};

use crate::words::{low_bits, signed, wrap};

/// `value << by`.
pub fn shift_left(width: u32, value: u64, by: u64) -> u64
    requires { IsWidth width }
    ensures { result ≡ shifted width by (wrapped width (pos (value * 2 ^ by))) }
{
    if by < u64::from(width) {
        low_bits(width, value << by)
    } else {
        0
    }
}

/// `value >> by`, with zeros in the bits above.
pub fn shift_right(width: u32, value: u64, by: u64) -> u64
    requires { IsWidth width }
    ensures { result ≡ shifted width by (value / 2 ^ by) }
{
    if by < u64::from(width) {
        value >> by
    } else {
        0
    }
}

/// `value >> by`, with copies of the sign in the bits above.
pub fn shift_right_signed(width: u32, value: u64, by: u64) -> u64
    requires width { IsWidth width }
    requires value { value < 2 ^ width }
    ensures { result ≡ shifted width by (wrapped width (int_shr (signed_of width value) by)) }
{
    if by < u64::from(width) {
        wrap(width, signed(width, value) >> by)
    } else {
        0
    }
}
