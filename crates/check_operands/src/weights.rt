// Notes of profiles.
ghost use Rattle.std.specs.Prelude.{◌≡◌};
ghost use Rattle.ir_rules.specs.Weighing as spec;

use ir_tree::{Instr, Prof, Term};
use sqlite_items::Boxed;

/// Whether a function may have the note: a count of entries where it is defined.
pub(crate) fn has_entries(is_declared: bool, prof: &Option<Boxed<Prof>>) -> bool
    ensures { result ≡ spec.has_entries is_declared prof.now }
{
    match prof {
        None => true,
        Some(note) => match note.get() {
            Prof::Entry(_) => !is_declared,
            Prof::Weights(_) | Prof::Targets { .. } => false,
        },
    }
}

/// Whether a call may have the note: its targets.
pub(crate) fn has_targets(prof: &Option<Boxed<Prof>>) -> bool
    ensures { result ≡ spec.has_targets prof.now }
{
    match prof {
        None => true,
        Some(note) => match note.get() {
            Prof::Targets { .. } => true,
            Prof::Entry(_) | Prof::Weights(_) => false,
        },
    }
}

fn has_weights(count: usize, prof: &Option<Boxed<Prof>>) -> bool
    ensures { result ≡ spec.has_weights count prof.now }
{
    match prof {
        None => true,
        Some(note) => match note.get() {
            Prof::Weights(weights) => weights.as_slice().len() == count,
            Prof::Entry(_) | Prof::Targets { .. } => false,
        },
    }
}

/// Whether an instruction has a note of its kind: a select two weights, a call targets.
pub(crate) fn is_weighed(instr: &Instr) -> bool
    ensures { result ≡ spec.is_weighed instr.now }
{
    match instr {
        Instr::Select { prof, .. } => has_weights(2, prof),
        Instr::Call { prof, .. } => has_targets(prof),
        Instr::Binary { .. }
        | Instr::Compare { .. }
        | Instr::Convert { .. }
        | Instr::Freeze { .. }
        | Instr::Phi { .. }
        | Instr::Alloca { .. }
        | Instr::Load { .. }
        | Instr::Store { .. }
        | Instr::Gep { .. }
        | Instr::Count { .. } => true,
    }
}

/// Whether a branch or switch has a weight for each successor.
pub(crate) fn is_weighed_term(term: &Term) -> bool
    ensures { result ≡ spec.is_weighed_term term.now }
{
    match term {
        Term::CondBr { prof, .. } => has_weights(2, prof),
        Term::Switch { cases, prof, .. } => has_weights(cases.as_slice().len() + 1, prof),
        Term::Br { .. } | Term::Ret { .. } | Term::Unreachable => true,
    }
}
