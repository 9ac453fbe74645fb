//! The operators and the comparisons, by their names in the language.
ghost use Rattle.std.specs.Prelude.{◌≡◌, ◌^◌, ◌<◌, ◌↔◌, IfOk, IsTrue};
ghost use Rattle.ir_value.specs.Integer.{IsWidth, least_signed, minus_one};

use crate::divide::{divide, divide_signed, remainder, remainder_signed};
use crate::shift::{shift_left, shift_right, shift_right_signed};
use crate::words::{low_bits, signed};

/// The binary operators on integers: LLVM Language Reference, "Binary Operations" and "Bitwise Binary Operations".
#[derive(Clone, Copy, Debug, PartialEq, Eq)]
pub enum ValueOp {
    Add,
    Sub,
    Mul,
    UDiv,
    SDiv,
    URem,
    SRem,
    Shl,
    LShr,
    AShr,
    And,
    Or,
    Xor,
}

/// The comparisons of integers: LLVM Language Reference, "icmp".
#[derive(Clone, Copy, Debug, PartialEq, Eq)]
pub enum ValuePred {
    Eq,
    Ne,
    Ugt,
    Uge,
    Ult,
    Ule,
    Sgt,
    Sge,
    Slt,
    Sle,
}

/// Why a division or a remainder has no result.
#[derive(Clone, Copy, Debug, PartialEq, Eq)]
pub enum DivTrap {
    /// The divisor is 0.
    DivZero,
    /// The dividend is the least signed number, and the divisor is -1.
    DivOverflow,
}

ghost use Rattle.ir_value.specs.Operators.{binary_of, compare_of, divides, divides_signed};

/// What `op` gives for two integers of `width` bits. A shift by the width or more gives 0.
/// It traps where `op` divides by 0, or a signed division or remainder overflows.
pub fn binary(op: ValueOp, width: u32, left: u64, right: u64) -> Result<u64, DivTrap>
    requires width { IsWidth width }
    requires left { left < 2 ^ width }
    requires right { right < 2 ^ width }
    ensures value { result ≡ binary_of op width left right }
    ensures fits { IfOk result (λ n. n < 2 ^ width) }
    ensures div_zero { (result ≡ Err DivTrap.DivZero) ↔ (IsTrue (divides op) × (right ≡ 0)) }
    ensures div_overflow { (result ≡ Err DivTrap.DivOverflow)
        ↔ (IsTrue (divides_signed op) × (left ≡ least_signed width) × (right ≡ minus_one width)) }
{
    match op {
        ValueOp::Add => Ok(low_bits(width, left.wrapping_add(right))),
        ValueOp::Sub => Ok(low_bits(width, left.wrapping_sub(right))),
        ValueOp::Mul => Ok(low_bits(width, left.wrapping_mul(right))),
        ValueOp::UDiv => divide(left, right),
        ValueOp::SDiv => divide_signed(width, left, right),
        ValueOp::URem => remainder(left, right),
        ValueOp::SRem => remainder_signed(width, left, right),
        ValueOp::Shl => Ok(shift_left(width, left, right)),
        ValueOp::LShr => Ok(shift_right(width, left, right)),
        ValueOp::AShr => Ok(shift_right_signed(width, left, right)),
        ValueOp::And => Ok(left & right),
        ValueOp::Or => Ok(left | right),
        ValueOp::Xor => Ok(left ^ right),
    }
}

/// Whether `pred` holds between two integers of `width` bits.
pub fn compare(pred: ValuePred, width: u32, left: u64, right: u64) -> bool
    requires width { IsWidth width }
    requires left { left < 2 ^ width }
    requires right { right < 2 ^ width }
    ensures { result ≡ compare_of pred width left right }
{
    match pred {
        ValuePred::Eq => left == right,
        ValuePred::Ne => left != right,
        ValuePred::Ugt => left > right,
        ValuePred::Uge => left >= right,
        ValuePred::Ult => left < right,
        ValuePred::Ule => left <= right,
        ValuePred::Sgt => signed(width, left) > signed(width, right),
        ValuePred::Sge => signed(width, left) >= signed(width, right),
        ValuePred::Slt => signed(width, left) < signed(width, right),
        ValuePred::Sle => signed(width, left) <= signed(width, right),
    }
}
