// The text of a call's outcome.
ghost use Rattle.std.specs.Prelude.{◌≡◌, ◌++◌, ◌^◌, ◌-◌, ◌-ℤ◌, ◌≤ℤ◌, pos, nat_lt, if◌then◌else◌, decimal, codes, OnOk, IfOk, IfSome, slice_get};
ghost use Rattle.std.specs.Fmt.{signed_decimal};
ghost use Rattle.std.specs.Option.{option_map};
ghost use Rattle.ir_tree.specs.Types.{width_of};
ghost use Rattle.call_list.specs.Outcome.{value_text, trap_text, returned_text, end_text, outcome_text, outcome_of};

use ir_model::{Call, CallResult, End, TrapKind};
use ir_tree::{Function, Numbering, Ret, Ty, push_global_name};
use pgo_base::NoMemory;
use push_text::{push, push_number, push_signed};
use std::alloc::Global;

// The first integer of the type that reads as negative, and how many integers it has.
fn halves(ty: Ty) -> Option<(u64, i128)>
    ensures value { result ≡ option_map (λ w. (2 ^ (w - 1), pos (2 ^ w))) (width_of ty) }
    ensures range { IfSome result (λ p. (pos 0 ≤ℤ p.1) × (p.1 ≤ℤ pos (2 ^ 64))) }
{
    match ty {
        Ty::I1 => Some((1, 1 << 1)),
        Ty::I8 => Some((1 << 7, 1 << 8)),
        Ty::I16 => Some((1 << 15, 1 << 16)),
        Ty::I32 => Some((1 << 31, 1 << 32)),
        Ty::I64 => Some((1 << 63, 1 << 64)),
        Ty::Ptr => None,
    }
}

// The integer as it reads where those from `half` on are negative.
fn signed(value: u64, half: u64, count: i128) -> i128
    requires { (pos 0 ≤ℤ count) × (count ≤ℤ pos (2 ^ 64)) }
    ensures { result ≡ (if nat_lt value half then pos value else pos value -ℤ count) }
{
    if value < half {
        i128::from(value)
    } else {
        i128::from(value) - count
    }
}

#[tactic(auto, unfolding(crate::specs::Outcome::value_text))]
fn push_value(out: &mut Vec<u8>, ty: Ty, value: u64) -> Result<(), NoMemory>
    ensures { OnOk result (out.new.items ≡ out.old.items ++ value_text ty value) }
{
    match halves(ty) {
        Some((half, count)) => push_signed(out, signed(value, half, count)),
        None => push_number(out, value),
    }
}

/// The text of a trap, such as `div-zero`. Takes no memory.
pub fn trap_text(kind: TrapKind) -> &'static [u8]
    ensures { result.now ≡ trap_text kind }
{
    match kind {
        TrapKind::DivZero => b"div-zero",
        TrapKind::DivOverflow => b"div-overflow",
        TrapKind::Access => b"access",
        TrapKind::BadPointer => b"pointer",
        TrapKind::Callee => b"callee",
        TrapKind::External => b"external",
        TrapKind::Depth => b"depth",
        TrapKind::Cells => b"cells",
        TrapKind::Output => b"output",
        TrapKind::Unreachable => b"unreachable",
    }
}

fn push_returned(out: &mut Vec<u8>, ret: Ret, value: Option<u64>) -> Result<(), NoMemory>
    ensures { OnOk result (out.new.items ≡ out.old.items ++ returned_text ret value) }
{
    match (ret, value) {
        (Ret::Value(ty), Some(value)) => {
            push(out, b"returned ")?;
            push_value(out, ty, value)?;
            push(out, b"\n")
        }
        _ => push(out, b"returned\n"),
    }
}

fn push_trapped(out: &mut Vec<u8>, kind: TrapKind) -> Result<(), NoMemory>
    ensures { OnOk result (out.new.items ≡ out.old.items ++ codes "trapped " ++ trap_text kind ++ codes "\n") }
{
    push(out, b"trapped ")?;
    push(out, trap_text(kind))?;
    push(out, b"\n")
}

#[tactic(auto, unfolding(crate::specs::Outcome::end_text))]
fn push_end(out: &mut Vec<u8>, ret: Ret, end: End) -> Result<(), NoMemory>
    ensures { OnOk result (out.new.items ≡ out.old.items ++ end_text ret end) }
{
    match end {
        End::Returned(value) => push_returned(out, ret, value),
        End::Trapped(kind) => push_trapped(out, kind),
        End::StepsSpent => push(out, b"steps spent\n"),
    }
}

#[tactic(auto, unfolding(crate::specs::Outcome::outcome_text))]
fn push_outcome(
    out: &mut Vec<u8>,
    function: &Function,
    number: u32,
    ended: &CallResult,
) -> Result<(), NoMemory>
    ensures { OnOk result (out.new.items ≡ out.old.items ++ outcome_text function.now number ended.now) }
{
    push(out, b"call ")?;
    push_number(out, u64::from(number))?;
    push(out, b" @")?;
    push_global_name(out, function.name.bytes())?;
    push(out, b"\n")?;
    push(out, ended.printed.as_slice())?;
    push_end(out, function.ret, ended.end)
}

/// The text of a call's outcome: a line with the call's number and its function, what the call
/// printed, and a line that says how it ended. A value is in signed decimal of its width, an address
/// unsigned. Empty where no function has the call's number.
pub fn outcome(
    alloc: Global,
    functions: &Numbering,
    number: u32,
    call: &Call,
    ended: &CallResult,
) -> Result<Vec<u8>, NoMemory>
    ensures { IfOk result (λ text. text.items ≡ outcome_of (slice_get functions.now call.now.function) number ended.now) }
{
    let mut out = Vec::new(alloc);
    if let Some(function) = functions.get(call.function as usize) {
        push_outcome(&mut out, function, number, ended)?;
    }
    Ok(out)
}
