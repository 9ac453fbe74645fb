// Rule 17: calls of the intrinsics for counters.
ghost use Rattle.std.specs.Prelude.{◌≡◌, ◌&&◌, if◌then◌else◌, true, is_some};
ghost use Rattle.std.specs.Option.{option_copied};
ghost use Rattle.check_counting.specs.Checking as spec;
ghost use Rattle.ir_rules.specs.Declarations as names;
ghost use Rattle.ir_rules.specs.Intrinsics as rule;
ghost use Rattle.ir_rules.specs.Lists.{is_among};
ghost use Rattle.ir_rules.specs.Scopes.{variables};

use crate::operands::{number_of, variable_of};
use crate::units::is_unit_name;
use ir_tree::{Global1, Index, Instr, Module, Operand, Ty};

/// Whether an instruction calls no intrinsic for counters, or with a unit's name, literals and numbers in their ranges (LLVM Language
/// Reference, "llvm.instrprof" intrinsics).
pub(crate) fn counts_well(symbols: &Index, module: &Module, instr: &Instr) -> bool
    requires scope { spec.IsScope symbols.now «module».now }
    ensures { result ≡ rule.counts_well «module».now instr.now }
{
    match instr {
        Instr::Call { callee, args, .. } => calls_well(symbols, module, callee, args.as_slice()),
        Instr::Binary { .. }
        | Instr::Compare { .. }
        | Instr::Convert { .. }
        | Instr::Freeze { .. }
        | Instr::Select { .. }
        | Instr::Phi { .. }
        | Instr::Alloca { .. }
        | Instr::Load { .. }
        | Instr::Store { .. }
        | Instr::Gep { .. }
        | Instr::Count { .. } => true,
    }
}

fn calls_well(symbols: &Index, module: &Module, callee: &Operand, args: &[(Ty, Operand)]) -> bool
    requires scope { spec.IsScope symbols.now «module».now }
    ensures { result ≡ rule.calls_intrinsic_well «module».now callee.now args.now }
{
    match callee {
        Operand::Global(name) => names_place(symbols, module, name.bytes(), args),
        Operand::Int(_) | Operand::Null | Operand::Local(_) => true,
    }
}

// Calls with another number of arguments break the rule on calls.
#[tactic(auto, using(crate::proofs::Arguments::four_place, crate::proofs::Arguments::five_place, crate::proofs::Arguments::other_place))]
fn names_place(symbols: &Index, module: &Module, name: &[u8], args: &[(Ty, Operand)]) -> bool
    requires scope { spec.IsScope symbols.now «module».now }
    ensures { result ≡ rule.names_place «module».now name.now args.now }
{
    match args.len() {
        4 => of_four(
            symbols, module, name, &args[0], &args[1], &args[2], &args[3],
        ),
        5 => of_five(
            symbols, module, name, &args[0], &args[1], &args[2], &args[3], &args[4],
        ),
        _ => true,
    }
}

fn of_four(
    symbols: &Index,
    module: &Module,
    name: &[u8],
    unit: &(Ty, Operand),
    hash: &(Ty, Operand),
    counters: &(Ty, Operand),
    index: &(Ty, Operand),
) -> bool
    requires scope { spec.IsScope symbols.now «module».now }
    ensures { result ≡ spec.of_four «module».now name.now unit.now hash.now counters.now index.now }
{
    if is_increment(name) {
        return names_counter(symbols, module, unit, hash, counters, index);
    }
    true
}

fn of_five(
    symbols: &Index,
    module: &Module,
    name: &[u8],
    unit: &(Ty, Operand),
    second: &(Ty, Operand),
    third: &(Ty, Operand),
    fourth: &(Ty, Operand),
    fifth: &(Ty, Operand),
) -> bool
    requires scope { spec.IsScope symbols.now «module».now }
    ensures { result ≡ spec.of_five «module».now name.now unit.now second.now third.now fourth.now fifth.now }
{
    if is_increment_step(name) {
        return names_counter(symbols, module, unit, second, third, fourth);
    }
    if is_value_note(name) {
        return names_site(symbols, module, unit, second, fourth, fifth);
    }
    true
}

fn names_counter(
    symbols: &Index,
    module: &Module,
    unit: &(Ty, Operand),
    hash: &(Ty, Operand),
    counters: &(Ty, Operand),
    index: &(Ty, Operand),
) -> bool
    requires scope { spec.IsScope symbols.now «module».now }
    ensures { result ≡ rule.names_counter «module».now unit.now hash.now counters.now index.now }
{
    names_unit(symbols, module, &unit.1)
        && is_literal(&hash.1)
        && is_total(&counters.1)
        && is_literal(&index.1)
}

fn names_site(
    symbols: &Index,
    module: &Module,
    unit: &(Ty, Operand),
    hash: &(Ty, Operand),
    kind: &(Ty, Operand),
    index: &(Ty, Operand),
) -> bool
    requires scope { spec.IsScope symbols.now «module».now }
    ensures { result ≡ rule.names_site «module».now unit.now hash.now kind.now index.now }
{
    names_unit(symbols, module, &unit.1)
        && is_literal(&hash.1)
        && is_target_kind(&kind.1)
        && is_site(&index.1)
}

fn names_unit(symbols: &Index, module: &Module, operand: &Operand) -> bool
    requires scope { spec.IsScope symbols.now «module».now }
    ensures { result ≡ rule.names_unit «module».now operand.now }
{
    match operand {
        Operand::Global(name) => is_unit_name(name.bytes())
            && is_variable(symbols, module, name.bytes()),
        Operand::Int(_) | Operand::Null | Operand::Local(_) => false,
    }
}

#[tactic(auto, using(crate::proofs::Variables::among_variables))]
fn is_variable(symbols: &Index, module: &Module, name: &[u8]) -> bool
    requires scope { spec.IsScope symbols.now «module».now }
    ensures { result ≡ is_among name.now (variables «module».now) }
{
    is_found(variable_of(symbols, module.globals.as_slice(), name))
}

fn is_found(found: Option<&Global1>) -> bool
    ensures { result ≡ is_some (option_copied found.entry) }
{
    match found {
        Some(_) => true,
        None => false,
    }
}

fn is_literal(operand: &Operand) -> bool
    ensures { result ≡ rule.is_literal operand.now }
{
    number_of(operand).is_some()
}

fn is_total(operand: &Operand) -> bool
    ensures { result ≡ rule.is_number rule.is_counter_total operand.now }
{
    match operand {
        Operand::Int(value) => is_counter_total(*value),
        Operand::Null | Operand::Local(_) | Operand::Global(_) => false,
    }
}

#[tactic(auto, unfolding(ir_rules::specs::Intrinsics::is_counter_total))]
fn is_counter_total(total: u64) -> bool
    ensures { result ≡ rule.is_counter_total total }
{
    1 <= total && total <= 1_048_576
}

fn is_target_kind(operand: &Operand) -> bool
    ensures { result ≡ spec.is_target_kind operand.now }
{
    match operand {
        Operand::Int(value) => *value == 0,
        Operand::Null | Operand::Local(_) | Operand::Global(_) => false,
    }
}

fn is_site(operand: &Operand) -> bool
    ensures { result ≡ spec.is_site operand.now }
{
    match operand {
        Operand::Int(value) => *value < 65_536,
        Operand::Null | Operand::Local(_) | Operand::Global(_) => false,
    }
}

#[tactic(auto, unfolding(ir_rules::specs::Declarations::is_increment))]
fn is_increment(name: &[u8]) -> bool
    ensures { result ≡ names.is_increment name.now }
{
    b"llvm.instrprof.increment".as_slice() == name
}

#[tactic(auto, unfolding(ir_rules::specs::Declarations::is_increment_step))]
fn is_increment_step(name: &[u8]) -> bool
    ensures { result ≡ names.is_increment_step name.now }
{
    b"llvm.instrprof.increment.step".as_slice() == name
}

#[tactic(auto, unfolding(ir_rules::specs::Declarations::is_value_note))]
fn is_value_note(name: &[u8]) -> bool
    ensures { result ≡ names.is_value_note name.now }
{
    b"llvm.instrprof.value.profile".as_slice() == name
}
