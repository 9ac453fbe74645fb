// The types of calls and of returns.
ghost use Rattle.std.specs.Prelude.{◌≡◌, ◌&&◌, map};
ghost use Rattle.std.specs.Option.{option_copied};
ghost use Rattle.check_operands.specs.Found as found;
ghost use Rattle.ir_rules.specs.Calling as spec;
ghost use Rattle.ir_rules.specs.Declarations as declarations;
ghost use Rattle.ir_rules.specs.Existing as existing;
ghost use Rattle.ir_rules.specs.Returning as returning;

use crate::scope::Scope;
use crate::types::same_ty;
use ir_tree::{Function, Module, Name, Operand, Ret, Term, Ty, is_profile_name};

/// Whether an operand is a function of the profile, by its name.
pub(crate) fn names_profile(callee: &Operand) -> bool
    ensures { result ≡ existing.names_profile callee.now }
{
    match callee {
        Operand::Global(name) => is_profile_name(name.bytes()),
        Operand::Int(_) | Operand::Null | Operand::Local(_) => false,
    }
}

/// Whether a call has the types of what it calls, and a result name only where it returns something. `place` is that of the symbol
/// that the callee names.
pub(crate) fn calls_well(
    scope: &Scope,
    dest: &Option<Name>,
    ret: Ret,
    args: &[(Ty, Operand)],
    callee: &Operand,
    place: Option<usize>,
) -> bool
    requires knows { found.Knows scope.now }
    requires place { place ≡ found.symbol_place scope.now.symbols.now callee.now }
    ensures { result ≡ (spec.may_name ret dest.now && spec.is_callee scope.now.module.now ret (spec.arg_types args.now) callee.now) }
{
    may_name(ret, dest) && is_callee(scope, ret, args, callee, place)
}

fn may_name(ret: Ret, dest: &Option<Name>) -> bool
    ensures { result ≡ spec.may_name ret dest.now }
{
    match ret {
        Ret::Void => dest.is_none(),
        Ret::Value(_) => true,
    }
}

fn is_callee(
    scope: &Scope,
    ret: Ret,
    args: &[(Ty, Operand)],
    callee: &Operand,
    place: Option<usize>,
) -> bool
    requires knows { found.Knows scope.now }
    requires place { place ≡ found.symbol_place scope.now.symbols.now callee.now }
    ensures { result ≡ spec.is_callee scope.now.module.now ret (spec.arg_types args.now) callee.now }
{
    match callee {
        Operand::Local(_) => true,
        Operand::Global(_) => has_types(ret, args, called(scope.module, place)),
        Operand::Int(_) | Operand::Null => false,
    }
}

// The function at the place of a symbol: behind the global variables.
fn called(of: &Module, place: Option<usize>) -> Option<&Function>
    ensures { option_copied result ≡ found.called of.now place }
{
    let globals = of.globals.as_slice().len();
    match place {
        Some(p) => {
            if p < globals {
                None
            } else {
                of.functions.as_slice().get(p - globals)
            }
        }
        None => None,
    }
}

fn has_types(ret: Ret, args: &[(Ty, Operand)], function: Option<&Function>) -> bool
    ensures { result ≡ found.has_types ret (spec.arg_types args.now) (option_copied function.entry) }
{
    match function {
        Some(f) => same_ret(ret, f.ret) && same_types(args, f.params.as_slice()),
        None => false,
    }
}

fn same_ret(a: Ret, b: Ret) -> bool
    ensures { result ≡ declarations.same_ret a b }
{
    match (a, b) {
        (Ret::Void, Ret::Void) => true,
        (Ret::Value(a), Ret::Value(b)) => same_ty(a, b),
        (Ret::Void, Ret::Value(_)) | (Ret::Value(_), Ret::Void) => false,
    }
}

#[tactic(auto, using(crate::proofs::TypeLists::types_step, crate::proofs::TypeLists::unequal))]
fn same_types(args: &[(Ty, Operand)], params: &[(Ty, Name)]) -> bool
    ensures { result ≡ declarations.same_tys (spec.arg_types args.now) (map (λ p. p.0) params.now) }
{
    if args.len() != params.len() {
        return false;
    }
    for i in 0..args.len() {
        if !same_ty(args[i].0, params[i].0) {
            return false;
        }
    }
    true
}

/// Whether a terminator returns what the function does.
pub(crate) fn returns_well(ret: Ret, term: &Term) -> bool
    ensures { result ≡ returning.returns_well ret term.now }
{
    match term {
        Term::Ret { value } => is_returned(ret, value),
        Term::Br { .. } | Term::CondBr { .. } | Term::Switch { .. } | Term::Unreachable => true,
    }
}

fn is_returned(ret: Ret, value: &Option<(Ty, Operand)>) -> bool
    ensures { result ≡ returning.is_returned ret value.now }
{
    match (ret, value) {
        (Ret::Void, value) => value.is_none(),
        (Ret::Value(_), None) => false,
        (Ret::Value(ty), Some((given, _))) => same_ty(ty, *given),
    }
}
