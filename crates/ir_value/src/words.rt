//! An integer of a width in a machine word: its lowest bits, and its signed reading.
ghost use Rattle.std.specs.Prelude.{◌≡◌, ◌-◌, ◌^◌, ◌<◌, ◌%◌};
ghost use Rattle.ir_value.specs.Integer.{IsWidth, wrapped, signed_of};

/// The greatest number of `width` bits.
pub fn mask(width: u32) -> u64
    requires { IsWidth width }
    ensures { result ≡ 2 ^ width - 1 }
{
    u64::MAX >> (64 - width)
}

/// The lowest `width` bits of `value`.
pub fn low_bits(width: u32, value: u64) -> u64
    requires { IsWidth width }
    ensures { result ≡ value % 2 ^ width }
{
    value & mask(width)
}

/// The signed reading of `value`, by a copy of its highest bit into those above.
pub fn signed(width: u32, value: u64) -> i64
    requires width { IsWidth width }
    requires value { value < 2 ^ width }
    ensures { result ≡ signed_of width value }
{
    let above = 64 - width;
    (value << above).cast_signed() >> above
}

/// The integer of `width` bits that is congruent to `number`.
pub fn wrap(width: u32, number: i64) -> u64
    requires { IsWidth width }
    ensures { result ≡ wrapped width number }
{
    low_bits(width, number.cast_unsigned())
}
