// What kind a module is, and the limits of each.
ghost use Rattle.std.specs.Prelude.{◌≡◌};
ghost use Rattle.std.specs.List.{list_any};
ghost use Rattle.ir_rules.specs.Kinds as spec;
ghost use Rattle.ir_rules.specs.Limits as limits;

use ir_rules::{Kind, LimitKind};
use ir_tree::Function;

/// Plain, unless the functions declare what instrumentation or lowering adds; counted where they declare both.
pub fn kind_of(functions: &[Function]) -> Kind
    ensures { result ≡ spec.kind_of functions.now }
{
    if declares_increments(functions) {
        return Kind::Counted;
    }
    if declares_notes(functions) {
        return Kind::Lowered;
    }
    Kind::Plain
}

#[tactic(auto, unfolding(ir_rules::specs::Kinds::declares_increments))]
fn declares_increments(functions: &[Function]) -> bool
    ensures { result ≡ spec.declares_increments functions.now }
{
    declares(functions, b"llvm.instrprof.increment".as_slice())
}

#[tactic(auto, unfolding(ir_rules::specs::Kinds::declares_notes))]
fn declares_notes(functions: &[Function]) -> bool
    ensures { result ≡ spec.declares_notes functions.now }
{
    declares(functions, b"__llvm_profile_instrument_target".as_slice())
}

fn declares(functions: &[Function], name: &[u8]) -> bool
    ensures { result ≡ list_any (spec.declares name.now) functions.now }
{
    functions.iter().any(|f| declares_as(f, name))
}

fn declares_as(f: &Function, name: &[u8]) -> bool
    ensures { result ≡ spec.declares name.now f.now }
{
    f.is_declared() && f.name.bytes() == name
}

pub(crate) fn is_plain(kind: Kind) -> bool
    ensures { result ≡ spec.is_plain_kind kind }
{
    match kind {
        Kind::Plain => true,
        Kind::Counted | Kind::Lowered => false,
    }
}

/// The most that a module of the kind may have.
pub(crate) fn most(kind: Kind, which: LimitKind) -> u64
    ensures { result ≡ limits.most kind which }
{
    if is_plain(kind) {
        return plain_most(which);
    }
    grown_most(which)
}

fn plain_most(which: LimitKind) -> u64
    ensures { result ≡ limits.plain_most which }
{
    match which {
        LimitKind::Functions => 65_536,
        LimitKind::Globals => 65_536,
        LimitKind::Edges => 1_048_576,
        LimitKind::Registers => 2_048,
        LimitKind::Object => 1_048_576,
        LimitKind::Cells => 1_048_576,
        LimitKind::Sites => 65_536,
        LimitKind::Counters => 1_048_576,
    }
}

fn grown_most(which: LimitKind) -> u64
    ensures { result ≡ limits.grown_most which }
{
    match which {
        LimitKind::Functions => 65_540,
        LimitKind::Globals => 262_144,
        LimitKind::Edges => 2_097_152,
        LimitKind::Registers => 4_096,
        LimitKind::Object => 1_048_576,
        LimitKind::Cells => 1_048_576,
        LimitKind::Sites => 65_536,
        LimitKind::Counters => 1_048_576,
    }
}
