// Rule 18: `atomicrmw` on counters, in a lowered module alone.
ghost use Rattle.std.specs.Prelude.{◌≡◌};
ghost use Rattle.std.specs.Option.{option_copied};
ghost use Rattle.check_counting.specs.Checking as spec;
ghost use Rattle.ir_rules.specs.Counting as rule;
ghost use Rattle.ir_rules.specs.Kinds as kinds;

use crate::notes::calls_note_well;
use crate::operands::variable_of;
use crate::units::{is_length, is_unit_counters, length_of_i64};
use ir_rules::Kind;
use ir_tree::{Global1, Index, Instr, Module};

/// Whether an instruction counts one of a unit's counters, notes one of its sites, or does neither.
pub(crate) fn is_counted_well(symbols: &Index, kind: Kind, module: &Module, instr: &Instr) -> bool
    requires scope { spec.IsScope symbols.now «module».now }
    requires kind { kind ≡ kinds.kind_of «module».now.functions }
    ensures { result ≡ rule.is_counted_well «module».now instr.now }
{
    match instr {
        Instr::Call { callee, args, .. } => calls_note_well(
            symbols,
            module,
            callee,
            args.as_slice(),
        ),
        Instr::Count {
            symbol,
            size,
            index,
            ..
        } => {
            is_lowered(kind)
                && *index < *size
                && has_counters(symbols, module, symbol.bytes(), *size)
        }
        Instr::Binary { .. }
        | Instr::Compare { .. }
        | Instr::Convert { .. }
        | Instr::Freeze { .. }
        | Instr::Select { .. }
        | Instr::Phi { .. }
        | Instr::Alloca { .. }
        | Instr::Load { .. }
        | Instr::Store { .. }
        | Instr::Gep { .. } => true,
    }
}

fn is_lowered(kind: Kind) -> bool
    ensures { result ≡ kinds.is_lowered_kind kind }
{
    match kind {
        Kind::Lowered => true,
        Kind::Plain | Kind::Counted => false,
    }
}

#[tactic(auto, using(crate::proofs::Variables::any_variable))]
fn has_counters(symbols: &Index, module: &Module, name: &[u8], size: u64) -> bool
    requires scope { spec.IsScope symbols.now «module».now }
    ensures { result ≡ rule.has_counters «module».now name.now size }
{
    is_unit_counters(name)
        && has_length(size, variable_of(symbols, module.globals.as_slice(), name))
}

fn has_length(size: u64, found: Option<&Global1>) -> bool
    ensures { result ≡ spec.if_any (spec.has_length size) (option_copied found.entry) }
{
    match found {
        Some(g) => is_length(size, length_of_i64(&g.mem)),
        None => false,
    }
}
