//! Divisions and remainders, which trap at 0 and where the quotient overflows.
ghost use Rattle.std.specs.Prelude.{◌≡◌, ◌-◌, ◌/◌, ◌%◌, ◌^◌, ◌<◌, int_div, int_rem};
ghost use Rattle.ir_value.specs.Integer.{IsWidth, least_signed, minus_one, signed_of};
ghost use Rattle.ir_value.specs.Operators.{divided, divided_signed, overflows};

use crate::operators::DivTrap;
use crate::words::{mask, signed, wrap};

/// Whether `left` is the least signed number of `width` bits, and `right` is -1.
fn overflows(width: u32, left: u64, right: u64) -> bool
    requires { IsWidth width }
    ensures { result ≡ overflows width left right }
{
    left == 1 << (width - 1) && right == mask(width)
}

/// The unsigned quotient.
pub fn divide(left: u64, right: u64) -> Result<u64, DivTrap>
    ensures { result ≡ divided right (left / right) }
{
    if right == 0 {
        return Err(DivTrap::DivZero);
    }
    Ok(left / right)
}

/// The unsigned remainder.
pub fn remainder(left: u64, right: u64) -> Result<u64, DivTrap>
    ensures { result ≡ divided right (left % right) }
{
    if right == 0 {
        return Err(DivTrap::DivZero);
    }
    Ok(left % right)
}

/// The signed quotient, rounded towards 0.
pub fn divide_signed(width: u32, left: u64, right: u64) -> Result<u64, DivTrap>
    requires width { IsWidth width }
    requires left { left < 2 ^ width }
    requires right { right < 2 ^ width }
    ensures { result ≡ divided_signed width left right (int_div (signed_of width left) (signed_of width right)) }
{
    if right == 0 {
        return Err(DivTrap::DivZero);
    }
    if overflows(width, left, right) {
        return Err(DivTrap::DivOverflow);
    }
    Ok(wrap(width, signed(width, left) / signed(width, right)))
}

/// The signed remainder, with the sign of the dividend.
pub fn remainder_signed(width: u32, left: u64, right: u64) -> Result<u64, DivTrap>
    requires width { IsWidth width }
    requires left { left < 2 ^ width }
    requires right { right < 2 ^ width }
    ensures { result ≡ divided_signed width left right (int_rem (signed_of width left) (signed_of width right)) }
{
    if right == 0 {
        return Err(DivTrap::DivZero);
    }
    if overflows(width, left, right) {
        return Err(DivTrap::DivOverflow);
    }
    Ok(wrap(width, signed(width, left) % signed(width, right)))
}
