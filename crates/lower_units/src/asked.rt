// What the calls of LLVM's instrumentation intrinsics ask for.
ghost use Rattle.std.specs.Prelude.{◌≡◌, [], ◌∷◌};
ghost use Rattle.std.specs.Option.{option_and_then, option_copied, option_map};
ghost use Rattle.ir_tree.specs.Operands.{symbol_of};
ghost use Rattle.lower_units.specs.Shown as shown;
ghost use Rattle.lower_units.specs.Shown.{amount_of};
ghost use Rattle.lowering.specs.Asked as spec;

use crate::names::{is_increment, is_step, is_value_note};
use ir_tree::{Instr, Name, Operand, Ty};

/// What a call of an intrinsic asks for (LLVM Language Reference, "'llvm.instrprof.increment' Intrinsic" and those behind it). Each
/// names the global with the unit's name, and the hash of the unit's function.
#[derive(Clone, Copy)]
pub enum Asked<'a> {
    /// A counter of a unit with so many rises by an amount, by 1 where there is none.
    Rise {
        symbol: &'a Name,
        hash: u64,
        counters: u64,
        counter: u64,
        amount: Option<&'a Operand>,
    },
    /// A value is noted as the target of a call at a site.
    Note {
        symbol: &'a Name,
        hash: u64,
        target: &'a Operand,
        site: u64,
    },
}

impl<'a> Asked<'a> {
    /// The global with the unit's name.
    pub(crate) fn symbol(&self) -> &'a Name
        ensures { result.now ≡ spec.symbol_asked (shown.asked self.now) }
    {
        match self {
            Asked::Rise { symbol, .. } | Asked::Note { symbol, .. } => symbol,
        }
    }

    pub(crate) fn hash(&self) -> u64
        ensures { result ≡ spec.hash_asked (shown.asked self.now) }
    {
        match self {
            Asked::Rise { hash, .. } | Asked::Note { hash, .. } => *hash,
        }
    }
}

fn literal(operand: &Operand) -> Option<u64>
    ensures { result ≡ spec.literal operand.now }
{
    match operand {
        Operand::Int(value) => Some(*value),
        Operand::Null | Operand::Local(_) | Operand::Global(_) => None,
    }
}

fn symbol_of(operand: &Operand) -> Option<&Name>
    ensures { option_copied result ≡ symbol_of operand.now }
{
    match operand {
        Operand::Global(name) => Some(name),
        Operand::Int(_) | Operand::Null | Operand::Local(_) => None,
    }
}

fn rise<'a>(
    unit: &'a Operand,
    hash: &Operand,
    counters: &Operand,
    counter: &Operand,
    amount: Option<&'a Operand>,
) -> Option<Asked<'a>>
    ensures { option_map shown.asked result ≡ spec.rise unit.now hash.now counters.now counter.now (amount_of amount.entry) }
{
    let symbol = symbol_of(unit)?;
    let hash = literal(hash)?;
    let counters = literal(counters)?;
    let counter = literal(counter)?;
    Some(Asked::Rise {
        symbol,
        hash,
        counters,
        counter,
        amount,
    })
}

fn note<'a>(
    unit: &'a Operand,
    hash: &Operand,
    target: &'a Operand,
    site: &Operand,
) -> Option<Asked<'a>>
    ensures { option_map shown.asked result ≡ spec.note unit.now hash.now target.now site.now }
{
    let symbol = symbol_of(unit)?;
    let hash = literal(hash)?;
    let site = literal(site)?;
    Some(Asked::Note {
        symbol,
        hash,
        target,
        site,
    })
}

type Use = (Ty, Operand);

fn of_four<'a>(
    name: &[u8],
    unit: &'a Use,
    hash: &Use,
    counters: &Use,
    counter: &Use,
) -> Option<Asked<'a>>
    ensures { option_map shown.asked result ≡ spec.asked_by name.now (unit.now ∷ hash.now ∷ counters.now ∷ counter.now ∷ []) }
{
    if is_increment(name) {
        return rise(&unit.1, &hash.1, &counters.1, &counter.1, None);
    }
    None
}

fn of_five<'a>(
    name: &[u8],
    unit: &'a Use,
    second: &Use,
    third: &'a Use,
    fourth: &Use,
    fifth: &'a Use,
) -> Option<Asked<'a>>
    ensures { option_map shown.asked result ≡ spec.asked_by name.now (unit.now ∷ second.now ∷ third.now ∷ fourth.now ∷ fifth.now ∷ []) }
{
    if is_step(name) {
        return rise(&unit.1, &second.1, &third.1, &fourth.1, Some(&fifth.1));
    }
    if is_value_note(name) {
        return note(&unit.1, &second.1, &third.1, &fifth.1);
    }
    None
}

fn asked_by<'a>(name: &[u8], args: &'a [Use]) -> Option<Asked<'a>>
    ensures { option_map shown.asked result ≡ spec.asked_by name.now args.now }
{
    match args {
        [unit, hash, counters, counter] => of_four(name, unit, hash, counters, counter),
        [unit, second, third, fourth, fifth] => of_five(name, unit, second, third, fourth, fifth),
        _ => None,
    }
}

/// What an instruction asks for: a call of an intrinsic with the arguments that it takes, and no other instruction. Takes no memory.
pub fn asked_of(instr: &Instr) -> Option<Asked<'_>>
    ensures { option_map shown.asked result ≡ spec.asked instr.now }
{
    match instr {
        Instr::Call { callee, args, .. } => asked_of_callee(callee, args.as_slice()),
        Instr::Binary { .. }
        | Instr::Compare { .. }
        | Instr::Convert { .. }
        | Instr::Freeze { .. }
        | Instr::Select { .. }
        | Instr::Phi { .. }
        | Instr::Alloca { .. }
        | Instr::Load { .. }
        | Instr::Store { .. }
        | Instr::Gep { .. }
        | Instr::Count { .. } => None,
    }
}

fn asked_of_callee<'a>(callee: &Operand, args: &'a [Use]) -> Option<Asked<'a>>
    ensures { option_map shown.asked result ≡ option_and_then (λ name. spec.asked_by name args.now) (symbol_of callee.now) }
{
    match symbol_of(callee) {
        Some(name) => asked_by(name.bytes(), args),
        None => None,
    }
}
