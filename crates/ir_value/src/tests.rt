//! Cases worked out by hand, and every pair of integers of 1 and of 8 bits.
use crate::operators::{DivTrap, ValueOp, ValuePred, binary, compare};
use crate::words::mask;
use crate::{extend, truncate};
use std::test::Fail;

/// `binary`, where its conditions hold.
fn answer(op: ValueOp, width: u32, left: u64, right: u64) -> Option<Result<u64, DivTrap>> {
    if width < 1 || width > 64 {
        return None;
    }
    let most = mask(width);
    if left > most || right > most {
        return None;
    }
    Some(binary(op, width, left, right))
}

/// `compare`, where its conditions hold.
fn verdict(pred: ValuePred, width: u32, left: u64, right: u64) -> Option<bool> {
    if width < 1 || width > 64 {
        return None;
    }
    let most = mask(width);
    if left > most || right > most {
        return None;
    }
    Some(compare(pred, width, left, right))
}

const LEAST: u64 = 0x8000_0000_0000_0000;

const MOST: u64 = 0xffff_ffff_ffff_ffff;

#[test]
fn hand_computed_operators(rt: HostRuntime) -> Result<(), Fail> {
    let values = [
        (ValueOp::Add, 8, 200, 100, 44),
        (ValueOp::Add, 64, MOST, 2, 1),
        (ValueOp::Add, 1, 1, 1, 0),
        (ValueOp::Sub, 8, 3, 5, 254),
        (ValueOp::Sub, 64, 0, 1, MOST),
        (ValueOp::Sub, 16, 5, 3, 2),
        (ValueOp::Mul, 8, 16, 17, 16),
        (ValueOp::Mul, 32, 65536, 65536, 0),
        (ValueOp::Mul, 64, MOST, MOST, 1),
        (ValueOp::UDiv, 8, 249, 2, 124),
        (ValueOp::URem, 8, 249, 2, 1),
        // -7 / 2 is -3, 7 / -2 is -3, -7 / -2 is 3
        (ValueOp::SDiv, 8, 249, 2, 253),
        (ValueOp::SDiv, 8, 7, 254, 253),
        (ValueOp::SDiv, 8, 249, 254, 3),
        (ValueOp::SDiv, 64, LEAST, 1, LEAST),
        // -7 % 2 is -1, 7 % -2 is 1, -7 % -2 is -1
        (ValueOp::SRem, 8, 249, 2, 255),
        (ValueOp::SRem, 8, 7, 254, 1),
        (ValueOp::SRem, 8, 249, 254, 255),
        (ValueOp::Shl, 8, 129, 1, 2),
        (ValueOp::Shl, 8, 1, 8, 0),
        (ValueOp::Shl, 64, 1, 63, LEAST),
        (ValueOp::Shl, 64, 1, 64, 0),
        (ValueOp::LShr, 8, 249, 1, 124),
        (ValueOp::LShr, 32, 4294967295, 32, 0),
        // -7 >> 1 is -4, and from the width on 0
        (ValueOp::AShr, 8, 249, 1, 252),
        (ValueOp::AShr, 8, 249, 7, 255),
        (ValueOp::AShr, 8, 249, 8, 0),
        (ValueOp::AShr, 64, LEAST, 63, MOST),
        (ValueOp::AShr, 64, LEAST, 64, 0),
        (ValueOp::And, 8, 12, 10, 8),
        (ValueOp::Or, 8, 12, 10, 14),
        (ValueOp::Xor, 8, 12, 10, 6),
    ];
    for (op, width, left, right, wanted) in values {
        assert_eq!(rt; answer(op, width, left, right), Some(Ok(wanted)));
    }
    let traps = [
        (ValueOp::UDiv, 8, 1, 0, DivTrap::DivZero),
        (ValueOp::URem, 64, 0, 0, DivTrap::DivZero),
        (ValueOp::SDiv, 1, 1, 0, DivTrap::DivZero),
        (ValueOp::SRem, 16, 32768, 0, DivTrap::DivZero),
        (ValueOp::SDiv, 1, 1, 1, DivTrap::DivOverflow),
        (ValueOp::SDiv, 8, 128, 255, DivTrap::DivOverflow),
        (ValueOp::SRem, 8, 128, 255, DivTrap::DivOverflow),
        (ValueOp::SDiv, 64, LEAST, MOST, DivTrap::DivOverflow),
        (ValueOp::SRem, 64, LEAST, MOST, DivTrap::DivOverflow),
    ];
    for (op, width, left, right, wanted) in traps {
        assert_eq!(rt; answer(op, width, left, right), Some(Err(wanted)));
    }
    Ok(())
}

#[test]
fn hand_computed_comparisons_and_conversions(rt: HostRuntime) -> Result<(), Fail> {
    // 249 in 8 bits is -7; at 64 bits the least number is below 0
    let verdicts = [
        (ValuePred::Eq, 8, 249, 249, true),
        (ValuePred::Ne, 8, 249, 249, false),
        (ValuePred::Ult, 8, 249, 2, false),
        (ValuePred::Ule, 8, 2, 2, true),
        (ValuePred::Ugt, 8, 249, 2, true),
        (ValuePred::Uge, 8, 1, 2, false),
        (ValuePred::Slt, 8, 249, 2, true),
        (ValuePred::Sle, 8, 249, 249, true),
        (ValuePred::Sgt, 8, 249, 2, false),
        (ValuePred::Sge, 1, 0, 1, true),
        (ValuePred::Slt, 64, LEAST, 0, true),
    ];
    for (pred, width, left, right, wanted) in verdicts {
        assert_eq!(rt; verdict(pred, width, left, right), Some(wanted));
    }
    assert_eq!(rt; extend(true, 8, 16, 249), 65529);
    assert_eq!(rt; extend(false, 8, 16, 249), 249);
    assert_eq!(rt; extend(true, 1, 64, 1), MOST);
    assert_eq!(rt; extend(true, 32, 64, 2147483647), 2147483647);
    assert_eq!(rt; truncate(8, 65529), 249);
    assert_eq!(rt; truncate(1, 6), 0);
    Ok(())
}

/// An integer as a signed number: from one half of `whole`, which is 2 to its width, on it is below 0.
fn reading(whole: i64, value: i64) -> i64 {
    if value < whole / 2 {
        value
    } else {
        value.wrapping_sub(whole)
    }
}

/// What `op` gives by arithmetic on the numbers themselves, brought back below `whole`; nothing where it traps.
fn plain(op: ValueOp, width: i64, whole: i64, left: i64, right: i64) -> Option<i64> {
    let (signed_left, signed_right) = (reading(whole, left), reading(whole, right));
    let power = 1i64.wrapping_shl((right.cast_unsigned() % 64) as u32);
    let quotient = signed_left.checked_div(signed_right);
    let number = match op {
        ValueOp::Add => left.wrapping_add(right),
        ValueOp::Sub => left.wrapping_sub(right),
        ValueOp::Mul => left.wrapping_mul(right),
        ValueOp::UDiv => left.checked_div(right)?,
        ValueOp::URem => left.checked_rem(right)?,
        ValueOp::SDiv | ValueOp::SRem if quotient? == whole / 2 => return None,
        ValueOp::SDiv => quotient?,
        ValueOp::SRem => signed_left.checked_rem(signed_right)?,
        ValueOp::Shl | ValueOp::LShr | ValueOp::AShr if right >= width => 0,
        ValueOp::Shl => left.wrapping_mul(power),
        ValueOp::LShr => left.checked_div(power)?,
        ValueOp::AShr => signed_left.checked_div_euclid(power)?,
        ValueOp::And => left & right,
        ValueOp::Or => left | right,
        ValueOp::Xor => left ^ right,
    };
    number.checked_rem_euclid(whole)
}

const OPERATORS: [ValueOp; 13] = [
    ValueOp::Add,
    ValueOp::Sub,
    ValueOp::Mul,
    ValueOp::UDiv,
    ValueOp::SDiv,
    ValueOp::URem,
    ValueOp::SRem,
    ValueOp::Shl,
    ValueOp::LShr,
    ValueOp::AShr,
    ValueOp::And,
    ValueOp::Or,
    ValueOp::Xor,
];

/// Whether every operator gives the plain answer at every pair of integers below `whole`.
fn agrees(width: u32, whole: u32) -> bool {
    for op in OPERATORS {
        for left in 0..whole {
            for right in 0..whole {
                let (l, r) = (u64::from(left), u64::from(right));
                let wanted = plain(
                    op,
                    i64::from(width),
                    i64::from(whole),
                    i64::from(left),
                    i64::from(right),
                );
                let found = match answer(op, width, l, r) {
                    Some(Ok(value)) => Some(value.cast_signed()),
                    _ => None,
                };
                if found != wanted {
                    return false;
                }
            }
        }
    }
    true
}

#[test]
fn every_pair_of_bits_and_of_bytes(rt: HostRuntime) -> Result<(), Fail> {
    assert!(rt; agrees(1, 2));
    assert!(rt; agrees(8, 256));
    Ok(())
}
