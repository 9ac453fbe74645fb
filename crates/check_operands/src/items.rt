// The first rule that a head, an instruction or a terminator doesn't keep.
ghost use Rattle.std.specs.Prelude.{◌≡◌, ◌&&◌, true, false, [], ◌∷◌};
ghost use Rattle.check_operands.specs.Found.{Knows};
ghost use Rattle.check_operands.specs.Unkept.{exit_keeps, first_unkept, head_keeps, item_keeps};
ghost use Rattle.ir_rules.specs.Calling as calling;
ghost use Rattle.ir_rules.specs.Existing.{calls_profile};
ghost use Rattle.ir_tree.specs.declared.types.Instr.TheVariants as instrs;

use crate::calls::{calls_well, names_profile, returns_well};
use crate::operands::{Seen, both, place_of, see_all, see_at, see_operands, see_term};
use crate::scope::Scope;
use crate::types::{is_typed, is_typed_term};
use crate::weights::{has_entries, has_targets, is_weighed, is_weighed_term};
use ir_tree::{Function, Instr, Name, Operand, Prof, Ret, Term, Ty};
use sqlite_items::Boxed;

/// The rule that the head of a function breaks: only the one on notes speaks of it.
pub(crate) fn head_breaks(f: &Function) -> Option<u8>
    ensures { result ≡ first_unkept 11 (head_keeps f.now) }
{
    if has_entries(f.is_declared(), &f.prof) {
        None
    } else {
        Some(15)
    }
}

/// The first of the rules that an instruction breaks.
pub(crate) fn item_breaks(scope: &Scope, instr: &Instr) -> Option<u8>
    requires { Knows scope.now }
    ensures { result ≡ first_unkept 11 (item_keeps scope.now.module.now scope.now.function.now instr.now) }
{
    match instr {
        Instr::Call {
            dest,
            ret,
            callee,
            args,
            prof,
        } => call_breaks(scope, dest, *ret, callee, args.as_slice(), prof),
        Instr::Binary { .. }
        | Instr::Compare { .. }
        | Instr::Convert { .. }
        | Instr::Freeze { .. }
        | Instr::Select { .. }
        | Instr::Phi { .. }
        | Instr::Alloca { .. }
        | Instr::Load { .. }
        | Instr::Store { .. }
        | Instr::Gep { .. }
        | Instr::Count { .. } => other_breaks(scope, instr),
    }
}

fn other_breaks(scope: &Scope, instr: &Instr) -> Option<u8>
    requires knows { Knows scope.now }
    requires no_call { calling.calls_well scope.now.module.now instr.now ≡ true }
    requires none_allowed { calls_profile instr.now ≡ false }
    ensures { result ≡ first_unkept 11 (item_keeps scope.now.module.now scope.now.function.now instr.now) }
{
    let seen = see_operands(scope, instr);
    first_unkept(seen, is_typed(instr), true, true, is_weighed(instr))
}

// The callee is looked up once, as an operand and as what is called.
fn call_breaks(
    scope: &Scope,
    dest: &Option<Name>,
    ret: Ret,
    callee: &Operand,
    args: &[(Ty, Operand)],
    prof: &Option<Boxed<Prof>>,
) -> Option<u8>
    requires { Knows scope.now }
    ensures { result ≡ first_unkept 11 (item_keeps scope.now.module.now scope.now.function.now (instrs.Call dest.now ret callee.now args.now prof.now)) }
{
    let allowed = names_profile(callee);
    let place = place_of(scope.symbols, callee);
    let first = see_at(scope, allowed, Ty::Ptr, callee, place);
    let seen = both(first, see_all(scope, allowed, args));
    let calls = calls_well(scope, dest, ret, args, callee, place);
    first_unkept(seen, true, calls, true, has_targets(prof))
}

/// The first of the rules that a terminator breaks.
pub(crate) fn exit_breaks(scope: &Scope, term: &Term) -> Option<u8>
    requires { Knows scope.now }
    ensures { result ≡ first_unkept 11 (exit_keeps scope.now.module.now scope.now.function.now term.now) }
{
    let seen = see_term(scope, term);
    let returns = returns_well(scope.function.ret, term);
    first_unkept(
        seen,
        is_typed_term(term),
        true,
        returns,
        is_weighed_term(term),
    )
}

// The number of the first rule that isn't kept: operands exist, types, calls, returns, weights.
fn first_unkept(
    seen: Seen,
    is_typed: bool,
    calls: bool,
    returns: bool,
    is_weighed: bool,
) -> Option<u8>
    ensures { result ≡ first_unkept 11 (seen.exist ∷ (seen.fit && is_typed) ∷ calls ∷ returns ∷ is_weighed ∷ []) }
{
    if !seen.exist {
        return Some(11);
    }
    if !seen.fit || !is_typed {
        return Some(12);
    }
    if !calls {
        return Some(13);
    }
    if !returns {
        return Some(14);
    }
    if !is_weighed {
        return Some(15);
    }
    None
}
